//! Plateaus.

use canonical_trees::{TreeMemory, trees, trees_forked_in};
use forward_star::Star;
use plateau_finder::{
    Plateau, PlateauList, plateau_of, plateaus, plateaus_forked, plateaus_within,
};
use road_model::{FreeGate, Vertex};
use std::alloc::Global;
use std::fmt::Write;
use std::process::Abort;
use std::test::Fail;
use std::thread::Threads;
use worked_graphs::{A, Arcs, D, star_of, vertex_of};

// One path, through all four vertices.
const LINE: Arcs = &[(1, 3, 1), (3, 2, 1), (2, 4, 1)];

fn text_of(alloc: Global, list: &PlateauList) -> Result<String, Fail> {
    let mut text = String::new(alloc);
    for plateau in list.as_slice() {
        let (first, last) = (plateau.first.number(), plateau.last.number());
        let (least, length) = (plateau.least.number(), plateau.length);
        write!(text, "{least}: {first} to {last} {length}; ")?;
    }
    Ok(text)
}

// The plateaus from one vertex to another within the bound, where the radius is one too.
fn within(alloc: Global, star: &Star, ends: (u32, u32), bound: u64) -> Result<String, Fail> {
    let vertices = star.vertices();
    let from = vertex_of(vertices, ends.0)?;
    let to = vertex_of(vertices, ends.1)?;
    let pair = trees(alloc, star, from, to, Some(bound))?;
    let list = plateaus_within(alloc, &pair, bound)?;
    Ok(text_of(alloc, &list)?)
}

// The same by several threads.
fn within_forked(
    rt: &(impl Threads + Sync),
    alloc: Global,
    star: &Star,
    ends: (u32, u32),
    bound: u64,
) -> Result<String, Fail> {
    let vertices = star.vertices();
    let from = vertex_of(vertices, ends.0)?;
    let to = vertex_of(vertices, ends.1)?;
    let mut memory = TreeMemory::new(alloc);
    let radius = Some(bound);
    let mut pair = trees_forked_in(rt, alloc, &FreeGate, &mut memory, star, from, to, radius)?;
    pair.keep_steps_forked(rt, bound)?;
    let list = plateaus_forked(rt, alloc, &pair, bound)?;
    Ok(text_of(alloc, &list)?)
}

fn finds<R: Abort + Threads + Sync>(
    rt: &R,
    alloc: Global,
    star: &Star,
    ends: (u32, u32),
    bound: u64,
    wanted: &str,
) -> Result<(), Fail> {
    let text = within(alloc, star, ends, bound)?;
    assert_eq!(rt; text.as_str(), wanted, "{ends:?} within {bound}");
    let text = within_forked(rt, alloc, star, ends, bound)?;
    assert_eq!(rt;
        text.as_str(),
        wanted,
        "{ends:?} within {bound}, by threads"
    );
    Ok(())
}

// A graph of so many vertices, from where to where, a bound, and the plateaus.
const PLATEAUS: &[(u32, Arcs, (u32, u32), u64, &str)] = &[
    (6, A, (1, 6), 25, "1: 1 to 6 20; 3: 3 to 4 6; "),
    (6, A, (1, 6), 21, "1: 1 to 6 20; "),
    (6, A, (6, 1), 25, ""),
    (4, D, (1, 4), 12, "1: 1 to 2 5; 3: 3 to 4 5; "),
    (4, LINE, (1, 4), 3, "1: 1 to 4 3; "),
    (4, LINE, (3, 4), 2, "2: 3 to 4 2; "),
];

#[test]
fn finds_each_plateau_once(rt: HostRuntime) -> Result<(), Fail> {
    for row in PLATEAUS {
        let (vertices, arcs, ends, bound, wanted) = *row;
        let star = star_of(rt.alloc(), vertices, arcs)?;
        finds(&rt, rt.alloc(), &star, ends, bound, wanted)?;
    }
    Ok(())
}

#[test]
fn finds_the_plateau_of_a_vertex(rt: HostRuntime) -> Result<(), Fail> {
    let star = star_of(rt.alloc(), 6, A)?;
    let vertices = star.vertices();
    let from = vertex_of(vertices, 1)?;
    let to = vertex_of(vertices, 6)?;
    let pair = trees(rt.alloc(), &star, from, to, None)?;
    let list = plateaus(rt.alloc(), &pair)?;
    let found = plateau_of(&list, &pair, Vertex(4));
    let wanted = Plateau {
        first: Vertex(3),
        last: Vertex(4),
        least: Vertex(3),
        length: 6,
    };
    assert_eq!(rt; found, Some(wanted));
    assert_eq!(rt; plateau_of(&list, &pair, Vertex(5)), None);
    Ok(())
}
