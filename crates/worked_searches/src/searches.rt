//! Balls, and distances by plain searches.

ghost use Rattle.label_setting.specs.Search.{IsTracked};

use forward_star::Star;
use label_setting::SearchMemory;
use road_model::{Oracle, Vertex};
use std::alloc::Global;
use std::process::Abort;
use std::test::Fail;
use tree_search::{Ball, PlainOracle, search};
use worked_graphs::{A, star_of, vertex_of};

fn ball_of(alloc: Global, star: &Star, root: u32, radius: Option<u64>) -> Result<Ball, Fail> {
    let vertices = star.vertices();
    let root = vertex_of(vertices, root)?;
    if radius.unwrap_or(0) > 1000000000 {
        return Err("too large a radius".into());
    }
    Ok(search::ball(alloc, star, root, radius)?)
}

fn distance_to(
    alloc: Global,
    memory: &mut SearchMemory,
    star: &Star,
    root: u32,
    target: u32,
) -> Result<Option<u64>, Fail>
    requires { IsTracked memory.old.labels.items memory.old.touched.items }
    ensures { IsTracked memory.new.labels.items memory.new.touched.items }
{
    let vertices = star.vertices();
    let root = vertex_of(vertices, root)?;
    let target = vertex_of(vertices, target)?;
    Ok(search::labels_to(alloc, memory, star, root, target)?)
}

fn has_label<R: Abort>(rt: &R, ball: &Ball, v: u32, wanted: Option<u64>) {
    assert_eq!(rt; ball.label(Vertex(v)), wanted, "vertex {v}");
}

#[test]
fn finds_a_ball(rt: HostRuntime) -> Result<(), Fail> {
    let star = star_of(rt.alloc(), 6, A)?;
    let near = ball_of(rt.alloc(), &star, 1, Some(11))?;
    let members = [Vertex(1), Vertex(2), Vertex(3)];
    assert_eq!(rt; near.members().as_slice(), members.as_slice());
    has_label(&rt, &near, 1, Some(0));
    has_label(&rt, &near, 2, Some(10));
    has_label(&rt, &near, 3, Some(11));
    has_label(&rt, &near, 4, None);
    has_label(&rt, &near, 4294967295, None);
    Ok(())
}

// Reached in the order 2, 6, 3, 4.
fn reaches_4_vertices<R: Abort>(rt: &R, alloc: Global, vertices: u32) -> Result<(), Fail> {
    let star = star_of(alloc, vertices, A)?;
    let ball = ball_of(alloc, &star, 2, Some(10))?;
    let reached = [Vertex(2), Vertex(3), Vertex(4), Vertex(6)];
    assert_eq!(rt;
        ball.members().as_slice(),
        reached.as_slice(),
        "of {vertices}"
    );
    Ok(())
}

#[test]
fn finds_the_same_ball_of_most_of_a_graph_and_of_a_small_part(rt: HostRuntime) -> Result<(), Fail> {
    reaches_4_vertices(&rt, rt.alloc(), 6)?;
    reaches_4_vertices(&rt, rt.alloc(), 100)
}

#[test]
fn finds_all_that_can_be_reached(rt: HostRuntime) -> Result<(), Fail> {
    // a long arc into the first vertex of a short one
    let arcs = [(5, 1, 4294967295), (1, 6, 20)];
    let star = star_of(rt.alloc(), 6, &arcs)?;
    let all = ball_of(rt.alloc(), &star, 5, None)?;
    assert_eq!(rt; all.members().len(), 3);
    has_label(&rt, &all, 6, Some(4294967315));
    Ok(())
}

// The distances of these pairs, by one oracle.
fn distances_of(
    alloc: Global,
    star: &Star,
    pairs: &[(u32, u32)],
) -> Result<Vec<Option<u64>>, Fail> {
    let vertices = star.vertices();
    let mut oracle = PlainOracle::new(alloc, star)?;
    let mut distances = Vec::new(alloc);
    for pair in pairs {
        let from = vertex_of(vertices, pair.0)?;
        let to = vertex_of(vertices, pair.1)?;
        distances.push(oracle.distance(from, to)?)?;
    }
    Ok(distances)
}

#[test]
fn answers_distances(rt: HostRuntime) -> Result<(), Fail> {
    let star = star_of(rt.alloc(), 6, A)?;
    let pairs = [(2, 4), (1, 5), (1, 6), (6, 6), (2, 4)];
    let wanted = [Some(7), None, Some(20), Some(0), Some(7)];
    let distances = distances_of(rt.alloc(), &star, &pairs)?;
    assert_eq!(rt; distances.as_slice(), wanted.as_slice());
    Ok(())
}

#[test]
fn searches_up_to_a_target(rt: HostRuntime) -> Result<(), Fail> {
    let star = star_of(rt.alloc(), 6, A)?;
    let mut memory = SearchMemory::new(rt.alloc());
    assert_eq!(rt; distance_to(rt.alloc(), &mut memory, &star, 2, 4)?, Some(7));
    assert_eq!(rt; distance_to(rt.alloc(), &mut memory, &star, 1, 5)?, None);
    assert_eq!(rt; distance_to(rt.alloc(), &mut memory, &star, 6, 6)?, Some(0));
    Ok(())
}
