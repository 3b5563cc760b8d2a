//! Distances by a hierarchy, from one vertex to another and to many.

ghost use Rattle.std.specs.Prelude.{All, IfOk};
ghost use Rattle.road_model.specs.Graph.{IsVertex};

use contraction_order::{order_by, order_of};
use forward_star::Star;
use hierarchy_build::contract;
use hierarchy_query::{ClimbMemory, DistanceList, HierarchyOracle, one_to_many};
use road_model::{Oracle, Vertex, VertexList};
use std::alloc::Global;
use std::process::Abort;
use std::sync::Arc;
use std::test::Fail;
use worked_graphs::{A, Arcs, star_of, vertex_of};

/// Six vertices with one-way, parallel and longer arcs, and a loop; nothing leads to 5.
pub const MIXED: Arcs = &[
    (1, 2, 10),
    (2, 6, 10),
    (1, 3, 11),
    (3, 4, 6),
    (4, 6, 5),
    (2, 3, 1),
    (2, 3, 9),
    (3, 3, 2),
    (5, 1, 4294967295),
];

// Three leaves round vertex 1.
const LEAVES: Arcs = &[
    (1, 2, 1),
    (2, 1, 1),
    (1, 3, 2),
    (3, 1, 2),
    (1, 4, 3),
    (4, 1, 3),
];

const PATH: Arcs = &[(1, 2, 5), (2, 3, 4294967295), (3, 4, 2)];

// All lengths are equal, and two ways from 1 to 4.
const SQUARE: Arcs = &[(1, 2, 1), (1, 3, 1), (2, 4, 1), (3, 4, 1), (4, 1, 1)];

// The distances of these pairs, where the vertices of these numbers are contracted first.
fn distances_of(
    alloc: Global,
    star: &Star,
    wishes: &[u32],
    pairs: &[(u32, u32)],
) -> Result<Vec<Option<u64>>, Fail> {
    let vertices = star.vertices();
    let order = order_by(alloc, vertices, wishes)?;
    let hierarchy = contract(alloc, star, order)?;
    let mut oracle = HierarchyOracle::new(alloc, Arc::new(alloc, hierarchy)?)?;
    let mut distances = Vec::new(alloc);
    for pair in pairs {
        let from = vertex_of(vertices, pair.0)?;
        let to = vertex_of(vertices, pair.1)?;
        distances.push(oracle.distance(from, to)?)?;
    }
    Ok(distances)
}

#[test]
fn answers_where_1_is_contracted_first(rt: HostRuntime) -> Result<(), Fail> {
    let star = star_of(rt.alloc(), 6, MIXED)?;
    let pairs = [(2, 4), (1, 5), (1, 6), (6, 6), (5, 6), (2, 4)];
    let wanted = [Some(7), None, Some(20), Some(0), Some(4294967315), Some(7)];
    let distances = distances_of(rt.alloc(), &star, &[], &pairs)?;
    assert_eq!(rt; distances.as_slice(), wanted.as_slice());
    Ok(())
}

#[test]
fn answers_where_3_is_contracted_first(rt: HostRuntime) -> Result<(), Fail> {
    let star = star_of(rt.alloc(), 6, MIXED)?;
    let pairs = [(2, 4), (1, 5), (1, 6), (6, 6), (5, 6), (1, 3)];
    let wanted = [Some(7), None, Some(20), Some(0), Some(4294967315), Some(11)];
    let distances = distances_of(rt.alloc(), &star, &[3, 1, 4], &pairs)?;
    assert_eq!(rt; distances.as_slice(), wanted.as_slice());
    Ok(())
}

// The vertices of these numbers; a number that is none of a graph of so many vertices fails the test.
fn vertices_of(alloc: Global, vertices: u32, numbers: &[u32]) -> Result<VertexList, Fail>
    ensures { IfOk result (λ vs. All (IsVertex vertices) vs) }
{
    let mut list = VertexList::new(alloc);
    for number in numbers {
        list.push(vertex_of(vertices, *number)?)?;
    }
    Ok(list)
}

// The distances from one vertex to others, in one call.
fn listed(alloc: Global, star: &Star, from: u32, numbers: &[u32]) -> Result<DistanceList, Fail> {
    let vertices = star.vertices();
    let from = vertex_of(vertices, from)?;
    let targets = vertices_of(alloc, vertices, numbers)?;
    let order = order_of(alloc, star)?;
    let hierarchy = Arc::new(alloc, contract(alloc, star, order)?)?;
    let list = one_to_many(alloc, hierarchy, from, targets.as_slice())?;
    Ok(list)
}

// The same one after another, in the memory of an earlier oracle.
fn asked(
    alloc: Global,
    memory: ClimbMemory,
    star: &Star,
    from: u32,
    numbers: &[u32],
) -> Result<(DistanceList, ClimbMemory), Fail> {
    let vertices = star.vertices();
    let from = vertex_of(vertices, from)?;
    let order = order_of(alloc, star)?;
    let hierarchy = Arc::new(alloc, contract(alloc, star, order)?)?;
    let mut oracle = HierarchyOracle::in_memory(alloc, memory, hierarchy)?;
    let mut distances = DistanceList::new(alloc);
    for number in numbers {
        let to = vertex_of(vertices, *number)?;
        distances.push(oracle.distance(from, to)?)?;
    }
    Ok((distances, oracle.into_memory()))
}

// In one call, and one after another in a memory, which is given back.
fn answers_both_ways<R: Abort>(
    rt: &R,
    alloc: Global,
    memory: ClimbMemory,
    star: &Star,
    from: u32,
    targets: &[u32],
    wanted: &[Option<u64>],
) -> Result<ClimbMemory, Fail> {
    let list = listed(alloc, star, from, targets)?;
    assert_eq!(rt; list.as_slice(), wanted, "from {from}");
    let (distances, kept) = asked(alloc, memory, star, from, targets)?;
    assert_eq!(rt; distances.as_slice(), wanted, "from {from}, in a memory");
    Ok(kept)
}

#[test]
fn answers_the_same_in_a_list_and_in_a_memory_that_is_kept(rt: HostRuntime) -> Result<(), Fail> {
    let a = rt.alloc();
    let memory = ClimbMemory::new(a);
    let worked = star_of(a, 6, A)?;
    let memory = answers_both_ways(&rt, a, memory, &worked, 1, &[6, 5], &[Some(20), None])?;
    let wanted = [Some(7), None, Some(7), Some(10), Some(0), None];
    let mixed = star_of(a, 6, MIXED)?;
    let memory = answers_both_ways(&rt, a, memory, &mixed, 2, &[4, 5, 4, 6, 2, 1], &wanted)?;
    let bare = star_of(a, 3, &[])?;
    let memory = answers_both_ways(&rt, a, memory, &bare, 2, &[1, 2, 3], &[None, Some(0), None])?;
    let one = star_of(a, 1, &[])?;
    let memory = answers_both_ways(&rt, a, memory, &one, 1, &[1], &[Some(0)])?;
    let wanted = [Some(3), Some(0), Some(5), Some(2)];
    let leaves = star_of(a, 4, LEAVES)?;
    let memory = answers_both_ways(&rt, a, memory, &leaves, 3, &[2, 3, 4, 1], &wanted)?;
    let wanted = [None, Some(0), Some(4294967295), Some(4294967297)];
    let path = star_of(a, 4, PATH)?;
    let memory = answers_both_ways(&rt, a, memory, &path, 2, &[1, 2, 3, 4], &wanted)?;
    let wanted = [Some(2), Some(1), Some(1), Some(0)];
    let square = star_of(a, 4, SQUARE)?;
    answers_both_ways(&rt, a, memory, &square, 1, &[4, 2, 3, 1], &wanted)?;
    Ok(())
}
