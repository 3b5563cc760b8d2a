//! The vertices before the vias of routes, and the trees from them.

ghost use Rattle.std.specs.Prelude.{◌≡◌, ◌<◌, ◌≤◌, ◌-◌, IfOk, OnOk, All, length, slice_index};
ghost use Rattle.road_model.specs.Graph.{IsVertex};
ghost use Rattle.road_model.specs.Places.{vertex_at, between};
ghost use Rattle.certify.specs.Written.{AreStarts};
ghost use Rattle.certify.specs.Starts.{IsViaRoute, AddsStarts, AreStartsOf, IsSorted, AreFarthest, IsRunEnd};

use crate::blocks::from_block;
use crate::places::place_of;
use canonical_trees::{TreeMemory, trees_in};
use certificate_text::Block;
use forward_star::Star;
use road_model::{NoMemory, Query, Route, RouteList, Trail, Vertex};
use std::alloc::Global;

/// A vertex before the via of a route, and how far the route leads on from there.
#[derive(Clone, Copy, Debug)]
pub(crate) struct Start {
    pub(crate) vertex: Vertex,
    pub(crate) rest: u64,
}

fn start_at(trail: &Trail, place: usize) -> Start
    requires inside { place < length trail.now.sums }
    requires both { length trail.now.vertices ≡ length trail.now.sums }
    requires rising { slice_index trail.now.sums place ≤ slice_index trail.now.sums (length trail.now.sums - 1) }
    ensures vertex { result.vertex ≡ vertex_at trail.now place }
    ensures rest { result.rest ≡ between trail.now place (length trail.now.sums - 1) }
{
    let vertices = trail.vertices.as_slice();
    let sums = trail.sums.as_slice();
    Start {
        vertex: vertices[place],
        rest: sums[sums.len() - 1] - sums[place],
    }
}

/// Adds those of one route. Time linear in its arcs; 16 bytes a place before the via.
fn add_starts(
    alloc: Global,
    star: &Star,
    from: Vertex,
    route: &Route,
    starts: &mut Vec<Start>,
) -> Result<(), NoMemory>
    requires { IsViaRoute star.now from route.now }
    ensures { OnOk result (AddsStarts star.now from route.now starts.old.items starts.new.items) }
{
    star.within_limits();
    let trail = Trail::of(alloc, star, from, route.arcs.as_slice())?;
    let via_at = place_of(&trail, route.via);
    for place in 0..via_at {
        starts.push(start_at(&trail, place))?;
    }
    Ok(())
}

fn starts_of(
    alloc: Global,
    star: &Star,
    from: Vertex,
    others: &[Route],
) -> Result<Vec<Start>, NoMemory>
    requires { All (IsViaRoute star.now from) others.now }
    ensures { IfOk result (λ starts. AreStartsOf star.now from others.now starts.items) }
{
    let mut starts = Vec::new(alloc);
    for route in others {
        add_starts(alloc, star, from, route, &mut starts)?;
    }
    Ok(starts)
}

/// The next start, if there is one, has another vertex.
fn ends_run(sorted: &[Start], place: usize) -> bool
    requires { place < length sorted.now }
    ensures { IsRunEnd sorted.now place result }
{
    place + 1 == sorted.len() || sorted[place + 1].vertex.number() != sorted[place].vertex.number()
}

/// The last start of each vertex but the source.
fn run_ends(alloc: Global, sorted: &[Start], source: Vertex) -> Result<Vec<Start>, NoMemory>
    requires { IsSorted sorted.now }
    ensures { IfOk result (λ kept. AreFarthest sorted.now source kept.items) }
{
    let mut kept = Vec::new(alloc);
    for (place, start) in sorted.iter().enumerate() {
        if start.vertex.number() != source.number() && ends_run(sorted, place) {
            kept.push(*start)?;
        }
    }
    Ok(kept)
}

/// Of the starts at a vertex but the source the one that is farthest from its route's end, by rising vertex.
fn farthest(alloc: Global, starts: Vec<Start>, source: Vertex) -> Result<Vec<Start>, NoMemory>
    ensures { IfOk result (λ kept. AreFarthest starts.items source kept.items) }
{
    let mut starts = starts;
    starts.sort_by_key(|start| (start.vertex, start.rest))?;
    let kept = run_ends(alloc, starts.as_slice(), source)?;
    Ok(kept)
}

/// A tree from each vertex before the via of a route, as far as the routes lead on from there. Takes two searches for
/// each, in one memory of 16 bytes a vertex of the star.
pub(crate) fn start_blocks(
    alloc: Global,
    star: &Star,
    query: &Query,
    others: &RouteList,
) -> Result<Vec<Block>, NoMemory>
    requires source { IsVertex star.now.vertices query.now.from }
    requires vias { All (IsViaRoute star.now query.now.from) others.now }
    ensures { IfOk result (λ blocks. AreStarts star.now query.now others.now blocks.items) }
{
    star.within_limits();
    let starts = starts_of(alloc, star, query.from, others.as_slice())?;
    let starts = farthest(alloc, starts, query.from)?;
    let mut memory = TreeMemory::new(alloc);
    let mut blocks = Vec::new(alloc);
    for start in starts.as_slice() {
        // The tree to the vertex isn't used: only pairs of trees tell their arcs.
        let pair = trees_in(
            alloc,
            &mut memory,
            star,
            start.vertex,
            start.vertex,
            Some(start.rest),
        )?;
        blocks.push(from_block(alloc, &pair, Some(start.rest))?)?;
        memory = pair.into_memory();
    }
    Ok(blocks)
}
