//! Refusals in the order of the tests, what is asked, and the pages of a small plan.

mod desk;
mod world;

use crate::{Asked, Limits, page_reply, tested};
use road_model::{
    Cursor, CursorQuery, ErrorKind, Items, NoMemory, Optimum, PageSpan, Plan, Query, Reply,
    Request, Route, Vertex,
};
use std::alloc::Global;
use std::test::Fail;

const LIMITS: Limits = Limits {
    vertices: 6,
    arcs: 5,
    number: 3,
    kept: false,
};

/// From 1 to 6, with a share of 6/5 where `steep`.
fn query(to: u64, steep: bool) -> CursorQuery {
    let usual = CursorQuery::usual(1, to);
    if steep {
        CursorQuery {
            gamma: (6, 5),
            ..usual
        }
    } else {
        usual
    }
}

fn route(query: CursorQuery, size: u64, since: Option<u64>) -> Request {
    Request::Route { query, size, since }
}

fn why(query: CursorQuery, via: u64, since: Option<u64>) -> Request {
    Request::Why { query, via, since }
}

fn next(version: u64, query: CursorQuery) -> Request {
    Request::Next {
        cursor: Cursor {
            version,
            query,
            size: 2,
            offset: 4,
        },
    }
}

#[test]
fn the_first_failing_test_of_a_query_names_the_refusal(rt: HostRuntime) {
    let rows = [
        (route(query(7, true), 0, Some(4)), Some(ErrorKind::Vertex)),
        (route(query(6, true), 0, Some(4)), Some(ErrorKind::Ratio)),
        (route(query(6, false), 65, Some(4)), Some(ErrorKind::Size)),
        (
            route(query(6, false), 64, Some(4)),
            Some(ErrorKind::Behind(3)),
        ),
        (route(query(6, false), 64, Some(3)), None),
        (why(query(6, true), 7, Some(4)), Some(ErrorKind::Vertex)),
        (why(query(6, true), 6, Some(4)), Some(ErrorKind::Ratio)),
        (why(query(6, false), 6, Some(4)), Some(ErrorKind::Behind(3))),
        (why(query(6, false), 6, None), None),
        (next(2, query(6, false)), Some(ErrorKind::Gone(3))),
        (next(3, query(6, false)), None),
    ];
    for (request, refusal) in &rows {
        assert_eq!(rt; tested(&LIMITS, request).err(), *refusal);
    }
}

#[test]
fn the_other_requests_are_refused_by_their_numbers(rt: HostRuntime) {
    let rows = [
        (Request::Best { from: 0, to: 6 }, Some(ErrorKind::Vertex)),
        (Request::Best { from: 6, to: 1 }, None),
        (Request::BadCursor, Some(ErrorKind::Cursor)),
        (
            Request::Length { arc: 6, length: 0 },
            Some(ErrorKind::ArcRange),
        ),
        (
            Request::Length {
                arc: 5,
                length: 4294967296,
            },
            Some(ErrorKind::LengthRange),
        ),
        (
            Request::Length {
                arc: 5,
                length: 4294967295,
            },
            None,
        ),
        (Request::Version, None),
        (Request::Publish, None),
        (Request::Quit, None),
    ];
    for (request, refusal) in &rows {
        assert_eq!(rt; tested(&LIMITS, request).err(), *refusal);
    }
    let last = Limits {
        number: 1048576,
        ..LIMITS
    };
    assert_eq!(rt;
        tested(&last, &Request::Publish).err(),
        Some(ErrorKind::Full)
    );
}

#[test]
fn a_kept_answer_has_pages_in_an_older_version(rt: HostRuntime) -> Result<(), Fail> {
    let kept = Limits {
        kept: true,
        ..LIMITS
    };
    match tested(&kept, &next(2, query(6, false))) {
        Ok(
            Asked::Page {
                number,
                query,
                size,
                offset,
            },
        ) => {
            assert_eq!(rt; (number, size, offset), (2, 2, 4));
            assert_eq!(rt; (query.from.number(), query.to.number()), (1, 6));
            assert_eq!(rt; (query.gamma.num(), query.gamma.den()), (4, 5));
            Ok(())
        }
        _ => Err("a page")?,
    }
}

/// A plan of an optimum and two alternatives, of which only the number matters.
fn small_plan(alloc: Global) -> Result<Plan, NoMemory> {
    let mut others = Vec::new(alloc);
    for via in 2..4 {
        others.push(Route {
            via: Vertex(via),
            length: 20,
            shared: 0,
            plateau: 0,
            rank: 40,
            arcs: Items::new(alloc),
        })?;
    }
    let optimum = Optimum {
        length: 20,
        arcs: Items::new(alloc),
    };
    Ok(Plan::Found {
        optimum,
        others: Items::from_vec(others),
    })
}

#[test]
fn the_cursor_of_a_page_points_at_the_next(rt: HostRuntime) -> Result<(), Fail> {
    let plan = small_plan(rt.alloc())?;
    let usual = Query::usual(Vertex(1), Vertex(6));
    let rows = [(0, 0, 2, Some(2)), (2, 2, 1, None), (9, 3, 0, None)];
    for (offset, first, count, beyond) in rows {
        match page_reply(3, &usual, 2, offset, &plan) {
            Reply::Page { number, span, more } => {
                let wanted = PageSpan {
                    first,
                    count,
                    more: beyond.is_some(),
                };
                assert_eq!(rt; number, 3);
                assert_eq!(rt; span, wanted);
                assert_eq!(rt; more, beyond.map(|offset| cursor(offset)));
            }
            _ => return Err("a page".into()),
        }
    }
    Ok(())
}

/// The cursor at this place of the pages of two items that are asked for here.
fn cursor(offset: u64) -> Cursor {
    Cursor {
        version: 3,
        query: query(6, false),
        size: 2,
        offset,
    }
}

#[test]
fn no_path_has_no_page(rt: HostRuntime) {
    let usual = Query::usual(Vertex(1), Vertex(6));
    let reply = page_reply(3, &usual, 2, 0, &Plan::NoPath);
    assert!(rt; matches!(reply, Reply::NoPath { number: 3 }));
}
