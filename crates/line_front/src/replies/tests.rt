//! Replies as texts, and where a write of them fails.

use super::write_reply;
use road_io::MemSink;
use road_model::{
    ArcNo, Cursor, CursorQuery, ErrorKind, Items, NoMemory, Optimum, PageSpan, Pair, Plan, Reply,
    Route, Verdict, Vertex,
};
use road_text::SinkFailed;
use std::alloc::Global;
use std::process::Abort;
use std::test::Fail;

fn optimum(alloc: Global) -> Result<Optimum, NoMemory> {
    Ok(Optimum {
        length: 20,
        arcs: Items::from_slice(alloc, &[ArcNo(1), ArcNo(2)])?,
    })
}

/// An optimum and two alternatives.
fn small_plan(alloc: Global) -> Result<Plan, NoMemory> {
    let mut others = Vec::new(alloc);
    others.push(Route {
        via: Vertex(3),
        length: 22,
        shared: 0,
        plateau: 11,
        rank: 33,
        arcs: Items::from_slice(alloc, &[ArcNo(3), ArcNo(4), ArcNo(5)])?,
    })?;
    others.push(Route {
        via: Vertex(4),
        length: 24,
        shared: 10,
        plateau: 0,
        rank: 58,
        arcs: Items::from_slice(alloc, &[ArcNo(1), ArcNo(60)])?,
    })?;
    Ok(Plan::Found {
        optimum: optimum(alloc)?,
        others: Items::from_vec(others),
    })
}

#[test]
fn an_optimum_has_its_length_and_its_arcs(rt: HostRuntime) -> Result<(), Fail> {
    let mut sink = MemSink::new(rt.alloc(), &[]);
    let reply = Reply::Best {
        number: 7,
        optimum: optimum(rt.alloc())?,
    };
    assert_eq!(rt; write_reply(&mut sink, &reply, None), Ok(()));
    assert_eq!(rt;
        sink.bytes(),
        b"ok 7\noptimum length 20 arcs 1 2\nend\n".as_slice()
    );
    Ok(())
}

/// Checks the lines of a page that has so many items of a plan, from the first of these on.
fn page(
    rt: &impl Abort,
    alloc: Global,
    plan: &Plan,
    first: u8,
    count: u8,
    more: Option<Cursor>,
    wanted: &[u8],
) {
    let span = PageSpan {
        first: u64::from(first),
        count: u64::from(count),
        more: more.is_some(),
    };
    let Plan::Found { others, .. } = plan else {
        panic!(rt; "a plan with no path");
    };
    assert!(rt; span.first + span.count <= 1 + others.as_slice().len() as u64);
    let mut sink = MemSink::new(alloc, &[]);
    let reply = Reply::Page {
        number: 7,
        span,
        more,
    };
    assert_eq!(rt; write_reply(&mut sink, &reply, Some(plan)), Ok(()));
    assert_eq!(rt; sink.bytes(), wanted);
}

#[test]
fn a_page_has_the_items_of_its_span(rt: HostRuntime) -> Result<(), Fail> {
    let alloc = rt.alloc();
    let plan = small_plan(alloc)?;
    let next = Cursor {
        version: 7,
        query: CursorQuery::usual(1, 6),
        size: 2,
        offset: 2,
    };
    page(
        &rt,
        alloc,
        &plan,
        0,
        2,
        Some(next),
        b"ok 7\noptimum length 20 arcs 1 2\n\
            route via 3 length 22 shared 0 plateau 11 rank 33 arcs 3 4 5\n\
            more 7.1.6.4.5.1.4.1.4.2.2\nend\n",
    );
    page(
        &rt,
        alloc,
        &plan,
        1,
        2,
        None,
        b"ok 7\nroute via 3 length 22 shared 0 plateau 11 rank 33 arcs 3 4 5\n\
            route via 4 length 24 shared 10 plateau 0 rank 58 arcs 1 60\nend\n",
    );
    page(&rt, alloc, &plan, 3, 0, None, b"ok 7\nend\n");
    page(&rt, alloc, &plan, 0, 0, None, b"ok 7\nend\n");
    Ok(())
}

/// Checks the lines of a verdict on vertex 5.
fn why(rt: &impl Abort, alloc: Global, verdict: Verdict, wanted: &[u8]) {
    let mut sink = MemSink::new(alloc, &[]);
    let reply = Reply::Why {
        number: 7,
        via: Vertex(5),
        verdict,
    };
    assert_eq!(rt; write_reply(&mut sink, &reply, None), Ok(()));
    assert_eq!(rt; sink.bytes(), wanted);
}

#[test]
fn a_verdict_has_its_word_and_its_numbers(rt: HostRuntime) {
    let alloc = rt.alloc();
    let pair = Pair {
        first: 0,
        last: 2,
        distance: 18446744073709551615,
    };
    why(
        &rt,
        alloc,
        Verdict::Unreached,
        b"ok 7\nverdict 5 unreached\nend\n",
    );
    why(
        &rt,
        alloc,
        Verdict::Optimum,
        b"ok 7\nverdict 5 optimum\nend\n",
    );
    why(
        &rt,
        alloc,
        Verdict::Long(30),
        b"ok 7\nverdict 5 long 30\nend\n",
    );
    why(
        &rt,
        alloc,
        Verdict::Shared(17),
        b"ok 7\nverdict 5 shared 17\nend\n",
    );
    why(
        &rt,
        alloc,
        Verdict::Local(pair),
        b"ok 7\nverdict 5 local 0 2 18446744073709551615\nend\n",
    );
    why(
        &rt,
        alloc,
        Verdict::Stretch(pair),
        b"ok 7\nverdict 5 stretch 0 2 18446744073709551615\nend\n",
    );
    why(
        &rt,
        alloc,
        Verdict::Listed(Vertex(3)),
        b"ok 7\nverdict 5 listed 3\nend\n",
    );
}

/// Checks the line of an error.
fn refused(rt: &impl Abort, alloc: Global, kind: ErrorKind, wanted: &[u8]) {
    let mut sink = MemSink::new(alloc, &[]);
    assert_eq!(rt; write_reply(&mut sink, &Reply::Error(kind), None), Ok(()));
    assert_eq!(rt; sink.bytes(), wanted);
}

#[test]
fn an_error_has_its_word(rt: HostRuntime) {
    let alloc = rt.alloc();
    refused(&rt, alloc, ErrorKind::Long, b"error long\n");
    refused(&rt, alloc, ErrorKind::Syntax, b"error syntax\n");
    refused(&rt, alloc, ErrorKind::Cursor, b"error cursor\n");
    refused(&rt, alloc, ErrorKind::Vertex, b"error vertex\n");
    refused(&rt, alloc, ErrorKind::Ratio, b"error ratio\n");
    refused(&rt, alloc, ErrorKind::Size, b"error size\n");
    refused(&rt, alloc, ErrorKind::Behind(7), b"error behind 7\n");
    refused(&rt, alloc, ErrorKind::Gone(7), b"error gone 7\n");
    refused(&rt, alloc, ErrorKind::ArcRange, b"error arc\n");
    refused(&rt, alloc, ErrorKind::LengthRange, b"error length\n");
    refused(&rt, alloc, ErrorKind::Full, b"error full\n");
    refused(&rt, alloc, ErrorKind::Memory, b"error memory\n");
}

#[test]
fn the_other_replies_are_a_word_and_a_number(rt: HostRuntime) {
    let mut sink = MemSink::new(rt.alloc(), &[]);
    assert_eq!(rt;
        write_reply(&mut sink, &Reply::NoPath { number: 7 }, None),
        Ok(())
    );
    assert_eq!(rt;
        write_reply(&mut sink, &Reply::Version { number: 1048576 }, None),
        Ok(())
    );
    assert_eq!(rt;
        write_reply(&mut sink, &Reply::Staged { count: 0 }, None),
        Ok(())
    );
    assert_eq!(rt;
        write_reply(&mut sink, &Reply::Published { number: 8 }, None),
        Ok(())
    );
    assert_eq!(rt;
        sink.bytes(),
        b"none 7\nversion 1048576\nstaged 0\npublished 8\n".as_slice()
    );
}

/// Checks what stands in a sink of which these two calls fail, and that no call follows the first.
fn cut(rt: &impl Abort, alloc: Global, failing: &[u64], wanted: &[u8]) {
    let mut sink = MemSink::new(alloc, failing);
    let reply = Reply::Error(ErrorKind::Gone(7));
    assert_eq!(rt; write_reply(&mut sink, &reply, None), Err(SinkFailed));
    assert_eq!(rt; sink.bytes(), wanted);
    assert_eq!(rt; sink.faults(), 1);
}

#[test]
fn after_a_failed_write_a_prefix_of_the_line_stands(rt: HostRuntime) {
    let alloc = rt.alloc();
    cut(&rt, alloc, &[0, 1], b"");
    cut(&rt, alloc, &[2, 3], b"error gone");
    cut(&rt, alloc, &[4, 5], b"error gone 7");
}
