//! A desk over versions of a graph without arcs, where no path leads from one vertex to another.

ghost use Rattle.std.specs.Prelude.{[]};
ghost use Rattle.desk_core.specs.Desks.{IsDeskRequest};

use crate::Desk;
use road_model::{
    Cursor, CursorQuery, ErrorKind, NoMemory, Optimum, Pinned, Plan, Planner, Query, Reply,
    Request, Verdict, Vertex,
};
use std::alloc::{AllocError, Global};
use std::process::Abort;
use std::sync::Arc;
use std::test::Fail;
use std::thread::Threads;

/// A version whose graph has no arcs. It refuses memory to a query whose source is its target. Its memory counts the
/// plans that were asked for.
#[derive(Drop)]
struct Arcless {
    number: u64,
}

impl Planner for Arcless {
    type Work = u64;

    ghost graph = { λ _. record { vertices = 20; arcs = [] } };

    ghost version = { λ v. v.number };

    fn work(_alloc: Global) -> u64 {
        0
    }

    fn number(&self) -> u64 {
        self.number
    }

    fn vertices(&self) -> u32 {
        20
    }

    fn arcs(&self) -> u32 {
        0
    }

    fn best<R: Threads + Sync>(
        &self,
        _rt: &R,
        _alloc: Global,
        _work: &mut u64,
        from: Vertex,
        to: Vertex,
    ) -> Result<Option<Optimum>, NoMemory> {
        if from == to {
            return Err(AllocError);
        }
        Ok(None)
    }

    fn plan<R: Threads + Sync>(
        &self,
        _rt: &R,
        _alloc: Global,
        work: &mut u64,
        query: &Query,
    ) -> Result<Plan, NoMemory> {
        *work = work.wrapping_add(1);
        if query.from == query.to {
            return Err(AllocError);
        }
        Ok(Plan::NoPath)
    }

    fn verdict<R: Threads + Sync>(
        &self,
        _rt: &R,
        _alloc: Global,
        _work: &mut u64,
        query: &Query,
        _via: Vertex,
    ) -> Result<Option<Verdict>, NoMemory> {
        if query.from == query.to {
            return Err(AllocError);
        }
        Ok(None)
    }
}

/// What is asked, of routes from vertex 1.
#[derive(Clone, Copy)]
enum Ask {
    Best(u64),
    Route(u64),
    /// Pages of so many items of the routes to a vertex, in a version.
    Next(u64, u64, u64),
    Version,
}

fn request(ask: &Ask) -> Request
    ensures { IsDeskRequest result }
{
    match ask {
        Ask::Best(to) => Request::Best { from: 1, to: *to },
        Ask::Route(to) => Request::Route {
            query: CursorQuery::usual(1, *to),
            size: 5,
            since: None,
        },
        Ask::Next(version, to, size) => Request::Next {
            cursor: Cursor {
                version: *version,
                query: CursorQuery::usual(1, *to),
                size: *size,
                offset: 0,
            },
        },
        Ask::Version => Request::Version,
    }
}

/// The version that a reply names, or the refusal.
fn told(reply: &Reply) -> Result<u64, ErrorKind> {
    match reply {
        Reply::NoPath { number } | Reply::Version { number } => Ok(*number),
        Reply::Error(kind) => Err(*kind),
        _ => Err(ErrorKind::Syntax),
    }
}

/// What is told over the version of this number, and whether a plan was asked for.
fn handled<R: Threads + Sync>(
    rt: &R,
    alloc: Global,
    desk: &mut Desk,
    number: u64,
    asked: &Ask,
) -> (Result<u64, ErrorKind>, bool) {
    let Ok(version) = Arc::new(alloc, Arcless { number }) else {
        return (Err(ErrorKind::Memory), false);
    };
    let pinned = Pinned::of(version);
    let request = request(asked);
    let mut work = Arcless::work(alloc);
    let reply = desk.handle(rt, alloc, &mut work, &pinned, &request);
    (told(&reply), work > 0)
}

/// Each row has the pinned version, what is asked, what is told, and whether a plan was asked for. What was refused
/// memory is asked a second time, so that one failing allocation changes nothing.
fn ask_all(
    rt: &(impl Abort + Threads + Sync),
    alloc: Global,
    desk: &mut Desk,
    rows: &[(u64, Ask, Result<u64, ErrorKind>, bool)],
) {
    for (number, asked, wanted, planned) in rows {
        let mut outcome = handled(rt, alloc, desk, *number, asked);
        if outcome.0 == Err(ErrorKind::Memory) {
            outcome = handled(rt, alloc, desk, *number, asked);
        }
        assert_eq!(rt; outcome, (*wanted, *planned));
    }
}

#[test]
fn a_ninth_plan_drops_the_one_used_longest_ago(rt: HostRuntime) -> Result<(), Fail> {
    let mut desk = Desk::start(rt.alloc(), 8)?;
    assert!(rt; desk.shown().is_none());
    let rows = [
        (1, Ask::Route(2), Ok(1), true),
        (1, Ask::Route(3), Ok(1), true),
        (1, Ask::Route(4), Ok(1), true),
        (1, Ask::Route(5), Ok(1), true),
        (1, Ask::Route(6), Ok(1), true),
        (1, Ask::Route(7), Ok(1), true),
        (1, Ask::Route(8), Ok(1), true),
        (1, Ask::Route(9), Ok(1), true),
        (1, Ask::Route(9), Ok(1), false),
        (2, Ask::Next(1, 2, 5), Ok(1), false),
        (2, Ask::Route(9), Ok(2), true),
        (2, Ask::Next(1, 3, 5), Err(ErrorKind::Gone(2)), false),
        (2, Ask::Next(1, 2, 5), Ok(1), false),
        (2, Ask::Next(1, 4, 5), Ok(1), false),
        (2, Ask::Next(1, 9, 5), Ok(1), false),
        (2, Ask::Next(2, 9, 5), Ok(2), false),
        (1, Ask::Next(2, 8, 5), Err(ErrorKind::Gone(1)), false),
    ];
    ask_all(&rt, rt.alloc(), &mut desk, &rows);
    assert!(rt; desk.shown().is_some());
    Ok(())
}

#[test]
fn what_is_refused_leaves_the_order(rt: HostRuntime) -> Result<(), Fail> {
    let mut desk = Desk::start(rt.alloc(), 2)?;
    let rows = [
        (1, Ask::Route(2), Ok(1), true),
        (1, Ask::Route(3), Ok(1), true),
        (1, Ask::Next(1, 2, 0), Err(ErrorKind::Size), false),
        (1, Ask::Route(21), Err(ErrorKind::Vertex), false),
        (1, Ask::Route(1), Err(ErrorKind::Memory), true),
        (1, Ask::Best(1), Err(ErrorKind::Memory), false),
        (2, Ask::Best(2), Ok(2), false),
        (2, Ask::Version, Ok(2), false),
        (2, Ask::Next(1, 4, 5), Err(ErrorKind::Gone(2)), false),
        (2, Ask::Next(2, 4, 5), Ok(2), true),
        (2, Ask::Next(1, 2, 5), Err(ErrorKind::Gone(2)), false),
        (2, Ask::Next(1, 3, 5), Ok(1), false),
    ];
    ask_all(&rt, rt.alloc(), &mut desk, &rows);
    Ok(())
}
