ghost use Rattle.std.specs.Prelude.{◌≡◌, ◌↔◌, ◌++◌, IfOk, IfSome, IsTrue};
ghost use Rattle.road_model.specs.Graph.{IsVertex};
ghost use Rattle.road_model.specs.ViaWalk.{IsViaWalk};

use canonical_trees::optimum;
use forward_star::Star;
use local_optimality::local;
use path_tests::{shared, stretch};
use road_model::{ArcList, ArcNo, NoMemory, Pair, Ratio, Trail, Vertex};
use std::alloc::Global;
use tree_search::PlainOracle;

/// A test of a walk.
#[derive(Drop)]
pub enum Test {
    Local { alpha: Ratio, opt_len: u64 },
    Stretch { epsilon: Ratio },
}

/// A walk of two shortest walks, joined at a place.
#[derive(Drop)]
pub struct ViaWalk {
    pub trail: Trail,
    pub via_at: u32,
}

pub fn arc_list(alloc: Global, numbers: &[u32]) -> Result<ArcList, NoMemory> {
    let mut arcs = ArcList::new(alloc);
    for number in numbers {
        arcs.push(ArcNo(*number))?;
    }
    Ok(arcs)
}

fn are_vertices(star: &Star, s: u32, v: u32, t: u32) -> bool
    ensures { IsTrue result ↔ (IsVertex star.now.vertices s × IsVertex star.now.vertices v
        × IsVertex star.now.vertices t) }
{
    let last = star.vertices();
    1 <= s && s <= last && 1 <= v && v <= last && 1 <= t && t <= last
}

fn joined(alloc: Global, prefix: &ArcList, back: &ArcList) -> Result<ArcList, NoMemory>
    ensures { IfOk result (λ arcs. arcs ≡ prefix.now ++ back.now) }
{
    let mut arcs = Vec::from_slice(alloc, prefix.as_slice())?;
    arcs.extend_from_slice(back.as_slice())?;
    Ok(ArcList::from_vec(arcs))
}

/// The canonical path from `s` to `v`, followed by the one from `v` to `t`.
pub fn walk_through(
    alloc: Global,
    star: &Star,
    s: u32,
    v: u32,
    t: u32,
) -> Result<Option<ViaWalk>, NoMemory>
    ensures { IfOk result (λ found. IfSome found (λ w. IsViaWalk star.now w.trail w.via_at)) }
{
    star.within_limits();
    if !are_vertices(star, s, v, t) {
        return Ok(None);
    }
    let Some(prefix) = optimum(alloc, star, Vertex(s), Vertex(v))? else {
        return Ok(None);
    };
    let Some(back) = optimum(alloc, star, Vertex(v), Vertex(t))? else {
        return Ok(None);
    };
    let arcs = joined(alloc, &prefix.arcs, &back.arcs)?;
    if arcs.len() > 1000 {
        return Ok(None);
    }
    let trail = Trail::of(alloc, star, Vertex(s), arcs.as_slice())?;
    Ok(Some(ViaWalk {
        trail,
        via_at: prefix.arcs.len() as u32,
    }))
}

/// What a test says of the walk through a vertex; none where there is no walk.
pub fn failing_pair(
    alloc: Global,
    star: &Star,
    s: u32,
    v: u32,
    t: u32,
    test: Test,
) -> Result<Option<Option<Pair>>, NoMemory> {
    star.within_limits();
    let Some(walk) = walk_through(alloc, star, s, v, t)? else {
        return Ok(None);
    };
    let mut oracle = PlainOracle::new(alloc, star)?;
    let found = match test {
        Test::Local { alpha, opt_len } => local(
            &mut oracle,
            &walk.trail,
            walk.via_at,
            &alpha,
            opt_len,
        )?,
        Test::Stretch { epsilon } => stretch(&mut oracle, &walk.trail, walk.via_at, &epsilon)?,
    };
    Ok(Some(found))
}

/// What some arcs share with the optimum; none where there is no path.
pub fn shared_with_optimum(
    alloc: Global,
    star: &Star,
    s: u32,
    t: u32,
    arcs: &ArcList,
) -> Result<Option<u64>, NoMemory> {
    if !are_vertices(star, s, s, t) {
        return Ok(None);
    }
    let Some(best) = optimum(alloc, star, Vertex(s), Vertex(t))? else {
        return Ok(None);
    };
    Ok(Some(shared(star, &best.arcs, arcs)))
}
