//! Arcs by the vertices that they lead out of and into, and changes of their lengths.

use forward_star::Star;
use road_model::{ArcNo, Change, ChangeFault, Network, Step, Vertex};
use std::alloc::Global;
use std::process::Abort;
use std::test::Fail;
use worked_graphs::star_of;

// A vertex and the number of a step, counted from 0; the arc, its other end and its length, where there is such a step.
type Row = (u32, u32, Option<(u32, u32, u64)>);

fn step(found: Option<(u32, u32, u64)>) -> Option<Step> {
    let (arc, head, length) = found?;
    Some(Step {
        arc: ArcNo(arc),
        head: Vertex(head),
        length,
    })
}

fn leads_out<R: Abort>(rt: &R, star: &Star, row: &Row) {
    let (v, i, wanted) = *row;
    assert_eq!(rt; star.out(Vertex(v), i), step(wanted), "step {i} out of {v}");
}

// By the star, and by the same turned round.
fn leads_in<R: Abort>(rt: &R, star: &Star, row: &Row) {
    let (v, i, wanted) = *row;
    assert_eq!(rt;
        star.into_step(Vertex(v), i),
        step(wanted),
        "step {i} into {v}"
    );
    let reversed = star.reversed();
    assert_eq!(rt;
        reversed.out(Vertex(v), i),
        step(wanted),
        "step {i} into {v}"
    );
}

const OUT: &[Row] = &[
    (0, 0, None),
    (1, 0, Some((1, 2, 10))),
    (1, 1, Some((3, 3, 11))),
    (1, 2, None),
    (2, 0, Some((2, 6, 10))),
    (2, 1, Some((6, 3, 1))),
    (2, 2, None),
    (5, 0, Some((7, 5, 4294967295))),
    (6, 0, None),
    (7, 0, None),
    (4294967295, 4294967295, None),
];

const INTO: &[Row] = &[
    (1, 0, None),
    (3, 0, Some((3, 1, 11))),
    (3, 1, Some((6, 2, 1))),
    (3, 2, None),
    (5, 0, Some((7, 5, 4294967295))),
    (6, 0, Some((2, 2, 10))),
    (6, 1, Some((5, 4, 5))),
    (6, 2, None),
];

#[test]
fn lists_arcs_in_both_directions(rt: HostRuntime) -> Result<(), Fail> {
    let arcs = [
        (1, 2, 10),
        (2, 6, 10),
        (1, 3, 11),
        (3, 4, 6),
        (4, 6, 5),
        (2, 3, 1),
        (5, 5, 4294967295),
    ];
    let star = star_of(rt.alloc(), 6, &arcs)?;
    assert_eq!(rt; star.vertices(), 6);
    assert_eq!(rt; star.arc_count(), 7);
    for row in OUT {
        leads_out(&rt, &star, row);
    }
    for row in INTO {
        leads_in(&rt, &star, row);
    }
    Ok(())
}

fn change(arc: u32, length: u64) -> Change {
    Change {
        arc: ArcNo(arc),
        length,
    }
}

fn has_length<R: Abort>(rt: &R, star: &Star, arc: u32, wanted: u64) {
    let length = star.arc(ArcNo(arc)).map(|row| row.length);
    assert_eq!(rt; length, Some(wanted), "arc {arc}");
}

// The lengths of the four arcs, by their numbers and by the vertices that they lead out of and into.
fn has_lengths<R: Abort>(rt: &R, star: &Star, lengths: [u64; 4]) {
    let [first, second, third, fourth] = lengths;
    has_length(rt, star, 1, first);
    has_length(rt, star, 2, second);
    has_length(rt, star, 3, third);
    has_length(rt, star, 4, fourth);
    leads_out(rt, star, &(1, 0, Some((1, 2, first))));
    leads_out(rt, star, &(1, 1, Some((3, 3, third))));
    leads_out(rt, star, &(1, 2, Some((4, 1, fourth))));
    leads_out(rt, star, &(1, 3, None));
    leads_out(rt, star, &(3, 0, Some((2, 2, second))));
    leads_in(rt, star, &(1, 0, Some((4, 1, fourth))));
    leads_in(rt, star, &(2, 0, Some((1, 1, first))));
    leads_in(rt, star, &(2, 1, Some((2, 3, second))));
    leads_in(rt, star, &(3, 0, Some((3, 1, third))));
}

#[test]
fn changes_lengths_and_leaves_the_star_as_it_was(rt: HostRuntime) -> Result<(), Fail> {
    let arcs = [(1, 2, 10), (3, 2, 5), (1, 3, 11), (1, 1, 6)];
    let star = star_of(rt.alloc(), 3, &arcs)?;
    let changes = [
        change(3, 4),
        change(4, 1),
        change(2, 4294967295),
        change(3, 7),
    ];
    let changed = star.with(rt.alloc(), &changes)?;
    let again = changed.with(rt.alloc(), &[change(1, 2)])?;
    has_lengths(&rt, &star, [10, 5, 11, 6]);
    has_lengths(&rt, &changed, [10, 4294967295, 7, 1]);
    has_lengths(&rt, &again, [2, 4294967295, 7, 1]);
    Ok(())
}

fn refused<R: Abort>(
    rt: &R,
    alloc: Global,
    star: &Star,
    changes: [(u32, u64); 2],
    wanted: Option<ChangeFault>,
) {
    let [(first, length), (second, other)] = changes;
    let made = [change(first, length), change(second, other)];
    let found = star.with(alloc, &made).err();
    assert_eq!(rt; found, wanted, "{first} {length}, {second} {other}");
}

#[test]
fn refuses_changes_by_the_first_that_fails(rt: HostRuntime) -> Result<(), Fail> {
    let a = rt.alloc();
    let star = star_of(a, 2, &[(1, 2, 5), (2, 1, 6)])?;
    let arc = Some(ChangeFault::ArcRange);
    let length = Some(ChangeFault::LengthRange);
    refused(&rt, a, &star, [(1, 1), (2, 4294967295)], None);
    refused(&rt, a, &star, [(0, 1), (1, 1)], arc);
    refused(&rt, a, &star, [(1, 1), (3, 1)], arc);
    refused(&rt, a, &star, [(2, 0), (1, 1)], length);
    refused(&rt, a, &star, [(1, 1), (1, 4294967296)], length);
    refused(&rt, a, &star, [(3, 0), (1, 1)], arc);
    refused(&rt, a, &star, [(1, 0), (3, 1)], length);
    refused(&rt, a, &star, [(3, 1), (1, 0)], arc);
    Ok(())
}
