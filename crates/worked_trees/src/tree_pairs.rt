//! Canonical paths, and the trees that they lie in.

use canonical_trees::{
    TreeMemory, TreePair, optimum, tree_from, tree_to, trees, trees_in, via_path,
};
use forward_star::Star;
use road_model::{ArcNo, Vertex, VertexList};
use std::alloc::Global;
use std::process::Abort;
use std::test::Fail;
use worked_graphs::{A, Arcs, D, LONG, PARALLEL, star_of, vertex_of};

const BARE: Arcs = &[];

// The arcs as a text, as "3 4 5".
fn text_of(alloc: Global, arcs: &[ArcNo]) -> Result<String, Fail> {
    let mut text = String::new(alloc);
    for a in arcs {
        write!(text, " {}", a.number())?;
    }
    Ok(text)
}

fn best(alloc: Global, star: &Star, from: u32, to: u32) -> Result<String, Fail> {
    let vertices = star.vertices();
    let from = vertex_of(vertices, from)?;
    let to = vertex_of(vertices, to)?;
    match optimum(alloc, star, from, to)? {
        Some(best) => {
            let arcs = text_of(alloc, best.arcs.as_slice())?;
            Ok(format!(in alloc; "{}:{}", best.length, arcs)?)
        }
        None => Ok(format!(in alloc; "none")?),
    }
}

fn has_optimum<R: Abort>(
    rt: &R,
    alloc: Global,
    star: &Star,
    from: u32,
    to: u32,
    wanted: &str,
) -> Result<(), Fail> {
    let found = best(alloc, star, from, to)?;
    assert_eq!(rt; found.as_str(), wanted, "from {from} to {to}");
    Ok(())
}

// A graph of so many vertices, from where to where, and the length and the arcs of the optimum.
const OPTIMA: &[(u32, Arcs, u32, u32, &str)] = &[
    (6, A, 1, 6, "20: 1 2"),
    (6, A, 1, 3, "11: 3"),
    (6, A, 6, 1, "none"),
    (6, A, 1, 5, "none"),
    (6, A, 1, 1, "0:"),
    (4, D, 1, 4, "10: 3 2"),
    (2, PARALLEL, 1, 2, "7: 1"),
    (2, PARALLEL, 1, 1, "0:"),
    (3, LONG, 1, 3, "8589934590: 1 2"),
    (1, BARE, 1, 1, "0:"),
    (3, BARE, 2, 3, "none"),
];

#[test]
fn finds_the_optimum(rt: HostRuntime) -> Result<(), Fail> {
    for row in OPTIMA {
        let (vertices, arcs, from, to, wanted) = *row;
        let star = star_of(rt.alloc(), vertices, arcs)?;
        has_optimum(&rt, rt.alloc(), &star, from, to, wanted)?;
    }
    Ok(())
}

// From 1 to the last vertex.
fn through(alloc: Global, star: &Star, radius: Option<u64>, via: u32) -> Result<String, Fail> {
    let vertices = star.vertices();
    let from = vertex_of(vertices, 1)?;
    let to = vertex_of(vertices, vertices)?;
    let pair = trees(alloc, star, from, to, radius)?;
    match via_path(alloc, &pair, Vertex(via))? {
        Some(path) => text_of(alloc, path.as_slice()),
        None => Ok(format!(in alloc; "none")?),
    }
}

fn leads_through<R: Abort>(
    rt: &R,
    alloc: Global,
    star: &Star,
    radius: Option<u64>,
    via: u32,
    wanted: &str,
) -> Result<(), Fail> {
    let found = through(alloc, star, radius, via)?;
    assert_eq!(rt; found.as_str(), wanted, "through {via} within {radius:?}");
    Ok(())
}

// A graph of so many vertices, a radius, a vertex, and the arcs of the path through it.
const VIA_PATHS: &[(u32, Arcs, Option<u64>, u32, &str)] = &[
    (6, A, Some(25), 4, " 3 4 5"),
    (6, A, Some(25), 3, " 3 4 5"),
    (6, A, Some(25), 2, " 1 2"),
    (6, A, Some(25), 5, "none"),
    (6, A, Some(25), 0, "none"),
    (6, A, Some(25), 7, "none"),
    (6, A, Some(16), 4, "none"),
    (6, A, None, 4, " 3 4 5"),
    (6, A, Some(u64::MAX), 4, " 3 4 5"),
    (4, D, Some(10), 1, " 1 4"),
    (4, D, Some(10), 4, " 3 2"),
    (1, BARE, Some(0), 1, ""),
];

#[test]
fn finds_paths_through_vertices(rt: HostRuntime) -> Result<(), Fail> {
    for row in VIA_PATHS {
        let (vertices, arcs, radius, via, wanted) = *row;
        let star = star_of(rt.alloc(), vertices, arcs)?;
        leads_through(&rt, rt.alloc(), &star, radius, via, wanted)?;
    }
    Ok(())
}

// How many arcs the path through a vertex has, from 1 to the last one, by trees in a kept memory. Steps are kept for the
// paths of at most so much.
fn kept(
    alloc: Global,
    memory: &mut TreeMemory,
    star: &Star,
    most: u64,
    via: u32,
) -> Result<usize, Fail> {
    let vertices = star.vertices();
    let from = vertex_of(vertices, 1)?;
    let to = vertex_of(vertices, vertices)?;
    let mut pair = trees_in(alloc, memory, star, from, to, None)?;
    pair.keep_steps(most)?;
    let path = via_path(alloc, &pair, Vertex(via))?;
    *memory = pair.into_memory();
    Ok(path.map_or(0, |arcs| arcs.len()))
}

#[test]
fn serves_graphs_of_two_sizes_in_one_memory(rt: HostRuntime) -> Result<(), Fail> {
    let large = star_of(rt.alloc(), 6, A)?;
    let small = star_of(rt.alloc(), 4, D)?;
    let mut memory = TreeMemory::new(rt.alloc());
    assert_eq!(rt; kept(rt.alloc(), &mut memory, &large, 22, 4)?, 3);
    assert_eq!(rt; kept(rt.alloc(), &mut memory, &large, 20, 2)?, 2);
    assert_eq!(rt; kept(rt.alloc(), &mut memory, &small, 0, 1)?, 2);
    Ok(())
}

fn members_text(alloc: Global, members: &VertexList) -> Result<String, Fail> {
    let mut text = String::new(alloc);
    for v in members.as_slice() {
        write!(text, " {}", v.number())?;
    }
    Ok(text)
}

fn arc_text(alloc: Global, arc: Option<ArcNo>) -> Result<String, Fail> {
    match arc {
        Some(a) => Ok(format!(in alloc; "{}", a.number())?),
        None => Ok(format!(in alloc; "-")?),
    }
}

fn label_text(alloc: Global, label: Option<u64>) -> Result<String, Fail> {
    match label {
        Some(d) => Ok(format!(in alloc; "{d}")?),
        None => Ok(format!(in alloc; "-")?),
    }
}

// The labels and the arcs of a vertex, in both trees.
fn row_text(alloc: Global, pair: &TreePair<'_>, v: u32) -> Result<String, Fail> {
    let near = label_text(alloc, pair.from_label(Vertex(v)))?;
    let far = label_text(alloc, pair.to_label(Vertex(v)))?;
    let last = arc_text(alloc, pair.from_arc(Vertex(v)))?;
    let first = arc_text(alloc, pair.to_arc(Vertex(v)))?;
    Ok(format!(in alloc; "{near} {far} {last} {first}")?)
}

// From 1 and to 6, put together out of two trees.
fn halves(alloc: Global, star: &Star, radius: u64) -> Result<TreePair<'_>, Fail> {
    let vertices = star.vertices();
    let source = vertex_of(vertices, 1)?;
    let target = vertex_of(vertices, 6)?;
    let from = tree_from(alloc, star, source, Some(radius))?;
    let to = tree_to(alloc, star, target, Some(radius))?;
    Ok(TreePair::of(from, to))
}

fn shows<R: Abort>(
    rt: &R,
    alloc: Global,
    pair: &TreePair<'_>,
    v: u32,
    wanted: &str,
) -> Result<(), Fail> {
    let found = row_text(alloc, pair, v)?;
    assert_eq!(rt; found.as_str(), wanted, "vertex {v}");
    Ok(())
}

const ROWS: &[(u32, &str)] = &[
    (0, "- - - -"),
    (1, "0 - - -"),
    (2, "10 10 1 2"),
    (3, "11 11 3 4"),
    (4, "17 5 4 5"),
    (5, "- - - -"),
    (6, "- 0 - -"),
    (7, "- - - -"),
];

#[test]
fn shows_labels_and_arcs(rt: HostRuntime) -> Result<(), Fail> {
    let star = star_of(rt.alloc(), 6, A)?;
    let pair = halves(rt.alloc(), &star, 17)?;
    for row in ROWS {
        shows(&rt, rt.alloc(), &pair, row.0, row.1)?;
    }
    Ok(())
}

#[test]
fn shows_members(rt: HostRuntime) -> Result<(), Fail> {
    let star = star_of(rt.alloc(), 6, A)?;
    let pair = halves(rt.alloc(), &star, 17)?;
    let near = members_text(rt.alloc(), pair.from_members())?;
    assert_eq!(rt; near.as_str(), " 1 2 3 4");
    let far = members_text(rt.alloc(), pair.to_members())?;
    assert_eq!(rt; far.as_str(), " 2 3 4 6");
    Ok(())
}

#[test]
fn shows_the_same_by_kept_steps(rt: HostRuntime) -> Result<(), Fail> {
    let a = rt.alloc();
    let star = star_of(a, 6, A)?;
    let mut pair = halves(a, &star, 17)?;
    pair.keep_steps(22)?;
    shows(&rt, a, &pair, 3, "11 11 3 4")?;
    shows(&rt, a, &pair, 1, "0 - - -")?;
    shows(&rt, a, &pair, 5, "- - - -")
}

#[test]
fn shows_its_roots_and_steps(rt: HostRuntime) -> Result<(), Fail> {
    let star = star_of(rt.alloc(), 6, A)?;
    let pair = halves(rt.alloc(), &star, 17)?;
    assert_eq!(rt; pair.star().vertices(), 6);
    assert_eq!(rt; pair.source().number(), 1);
    assert_eq!(rt; pair.target().number(), 6);
    let before = pair
        .from_step(Vertex(3))
        .map_or(0, |step| step.head.number());
    assert_eq!(rt; before, 1);
    let beyond = pair.to_step(Vertex(3)).map_or(0, |step| step.head.number());
    assert_eq!(rt; beyond, 4);
    Ok(())
}

#[test]
fn finds_paths_through_a_joined_pair(rt: HostRuntime) -> Result<(), Fail> {
    let star = star_of(rt.alloc(), 6, A)?;
    let pair = halves(rt.alloc(), &star, 25)?;
    let path = via_path(rt.alloc(), &pair, Vertex(4))?;
    let arcs = path.map_or(0, |arcs| arcs.len());
    assert_eq!(rt; arcs, 3);
    let none = via_path(rt.alloc(), &pair, Vertex(5))?;
    assert!(rt; none.is_none());
    Ok(())
}
