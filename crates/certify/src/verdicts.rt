//! The reason of a path: what its verdict is, and the detour that shows it.

ghost use Rattle.std.specs.Prelude.{◌≡◌, ◌≢◌, ◌<◌, ◌↔◌, Some, IfOk, IsTrue, length};
ghost use Rattle.road_model.specs.Graph.{IsVertex};
ghost use Rattle.road_model.specs.Dist.{IsDist, HaveSameDist};
ghost use Rattle.road_model.specs.Canonical.{IsFirst};
ghost use Rattle.road_model.specs.Fraction.{Allows};
ghost use Rattle.road_model.specs.Places.{vertex_at};
ghost use Rattle.road_model.specs.Tests.{shared};
ghost use Rattle.road_model.specs.Alternatives.{IsName};
ghost use Rattle.plateau_finder.specs.Plateaus.{IsListedPlateau};
ghost use Rattle.certify.specs.Reasons.{IsPosed, pair_of, IsPathReason, HasReason};

use crate::numbers::numbers_of;
use crate::places::place_of;
use canonical_trees::{TreeMemory, TreePair, optimum_in, via_path};
use certificate_text::{NumberList, Reason};
use forward_star::Star;
use local_optimality::local;
use path_tests::{shared, stretch, within_share};
use plateau_finder::Plateau;
use road_model::{ArcList, ArcNo, NoMemory, Optimum, Oracle, Pair, Query, Trail, Vertex};
use std::alloc::Global;

/// What the paths of a query are judged by: its optimum, and the trees from its two ends.
#[derive(Drop)]
pub(crate) struct Ground<'a> {
    pub(crate) star: &'a Star,
    pub(crate) pair: &'a TreePair<'a>,
    pub(crate) query: &'a Query,
    pub(crate) best: &'a Optimum,
}

/// The canonical path between two places that a walk leads through, by a search in a kept memory.
fn detour_of(
    alloc: Global,
    memory: &mut TreeMemory,
    star: &Star,
    trail: &Trail,
    pair: &Pair,
) -> Result<NumberList, NoMemory>
    requires first { pair.now.first < length trail.now.vertices }
    requires last { pair.now.last < length trail.now.vertices }
    requires from { IsVertex star.now.vertices (vertex_at trail.now pair.now.first) }
    requires to { IsVertex star.now.vertices (vertex_at trail.now pair.now.last) }
    requires dist { IsDist star.now (vertex_at trail.now pair.now.first) (vertex_at trail.now pair.now.last)
        (Some pair.now.distance) }
    ensures { IfOk result
        (λ detour. IsFirst star.now (vertex_at trail.now pair.now.first) detour (vertex_at trail.now pair.now.last)) }
{
    let vertices = trail.vertices.as_slice();
    let from = vertices[pair.first as usize];
    let to = vertices[pair.last as usize];
    let Some(shortest) = optimum_in(alloc, memory, star, from, to)? else {
        unreachable!()
    };
    numbers_of(alloc, shortest.arcs.as_slice())
}

/// The reason of a path that neither is the optimum nor shares too much with it. The tests are put at the place of its
/// name.
fn tested_reason<O: Oracle>(
    alloc: Global,
    memory: &mut TreeMemory,
    ground: &Ground<'_>,
    oracle: &mut O,
    name: Vertex,
    arcs: &ArcList,
) -> Result<Reason, NoMemory>
    requires posed { IsPosed ground.now.star.now ground.now.query.now ground.now.best.now }
    requires same { HaveSameDist ground.now.star.now (O.graph oracle.old) }
    requires named { IsName ground.now.star.now ground.now.query.now.from ground.now.query.now.to arcs.now name }
    requires other { arcs.now ≢ ground.now.best.now.arcs }
    requires limited { Allows ground.now.query.now.gamma
        (shared ground.now.star.now ground.now.best.now.arcs arcs.now) ground.now.best.now.length }
    ensures reason { IfOk result
        (IsPathReason ground.now.star.now ground.now.query.now ground.now.best.now.arcs arcs.now) }
    ensures same { O.graph oracle.new ≡ O.graph oracle.old }
{
    let query = ground.query;
    let trail = Trail::of(alloc, ground.star, query.from, arcs.as_slice())?;
    let via_at = place_of(&trail, name) as u32;
    if let Some(pair) = local(oracle, &trail, via_at, &query.alpha, ground.best.length)? {
        return Ok(Reason::Local {
            first: pair.first as u64,
            last: pair.last as u64,
            detour: detour_of(alloc, memory, ground.star, &trail, &pair)?,
        });
    }
    if let Some(pair) = stretch(oracle, &trail, via_at, &query.epsilon)? {
        return Ok(Reason::Stretch {
            first: pair.first as u64,
            last: pair.last as u64,
            detour: detour_of(alloc, memory, ground.star, &trail, &pair)?,
        });
    }
    Ok(Reason::Listed(name.number() as u64))
}

fn are_same(a: &[ArcNo], b: &[ArcNo]) -> bool
    ensures { IsTrue result ↔ (a.now ≡ b.now) }
{
    a == b
}

/// The reason of the path of a plateau. It asks what the tests of one path ask.
pub(crate) fn reason_of<O: Oracle>(
    alloc: Global,
    memory: &mut TreeMemory,
    ground: &Ground<'_>,
    oracle: &mut O,
    plateau: &Plateau,
) -> Result<Reason, NoMemory>
    requires posed { IsPosed ground.now.star.now ground.now.query.now ground.now.best.now }
    requires trees { ground.now.pair.now ≡ pair_of ground.now.star.now ground.now.query.now ground.now.pair.now.radius }
    requires same { HaveSameDist ground.now.star.now (O.graph oracle.old) }
    requires listed { IsListedPlateau ground.now.pair.now ground.now.pair.now.radius plateau.now }
    ensures reason { IfOk result
        (HasReason ground.now.star.now ground.now.query.now ground.now.best.now.arcs plateau.now.least) }
    ensures same { O.graph oracle.new ≡ O.graph oracle.old }
{
    let Some(arcs) = via_path(alloc, ground.pair, plateau.least)? else {
        unreachable!()
    };
    if are_same(arcs.as_slice(), ground.best.arcs.as_slice()) {
        return Ok(Reason::Optimum);
    }
    let sum = shared(ground.star, &ground.best.arcs, &arcs);
    if !within_share(sum, &ground.query.gamma, ground.best.length) {
        return Ok(Reason::Shared(sum));
    }
    let reason = tested_reason(alloc, memory, ground, oracle, plateau.least, &arcs)?;
    Ok(reason)
}
