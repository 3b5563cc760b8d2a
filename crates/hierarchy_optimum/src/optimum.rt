ghost use Rattle.std.specs.Prelude.{◌≡◌, ◌≤◌, ◌<◌, ◌^◌, ◌↔◌, Some, IsTrue, IfOk, IfSome};
ghost use Rattle.road_model.specs.Graph.{IsVertex};
ghost use Rattle.road_model.specs.Dist.{IsDist, HaveSameDist};
ghost use Rattle.road_model.specs.Canonical.{IsFirst, IsOptimum};
ghost use Rattle.hierarchy_optimum.specs.Back.{LeavesRest, IsStepBack};

use forward_star::Star;
use hierarchy_query::DistancesFrom;
use road_model::{ArcList, NoMemory, Optimum, Step, Vertex};
use std::alloc::Global;

// The distance of the step's head and the step's length make what is left.
#[inline]
fn is_tight(near: Option<u64>, step: &Step, left: u64) -> bool
    ensures { IsTrue result ↔ LeavesRest left step.now.length near }
{
    match near {
        Some(near) => near <= left && left - near == step.length,
        None => false,
    }
}

// The least of the arcs into `v` that a shortest walk from the source can end with, as a step back. Arcs come by rising
// number, so it is the first one that fits.
fn step_back(
    star: &Star,
    distances: &mut DistancesFrom,
    v: Vertex,
    left: u64,
) -> Result<Step, NoMemory>
    requires same { HaveSameDist star.now distances.old.graph }
    requires left { IsDist star.now distances.old.source v (Some left) }
    requires other { 1 ≤ left }
    ensures step { IfOk result (IsStepBack star.now distances.old.source v left) }
    ensures same { distances.new ≡ distances.old }
{
    star.within_limits();
    let mut i = 0;
    while let Some(step) = star.into_step(v, i) {
        let near = distances.distance(step.head)?;
        if is_tight(near, &step, left) {
            return Ok(step);
        }
        i += 1;
    }
    unreachable!()
}

// The canonical path from the source to `t`, which is as far as `length`. It is found from its end.
fn path_to(
    alloc: Global,
    star: &Star,
    distances: &mut DistancesFrom,
    t: Vertex,
    length: u64,
) -> Result<ArcList, NoMemory>
    requires same { HaveSameDist star.now distances.old.graph }
    requires length { IsDist star.now distances.old.source t (Some length) }
    ensures path { IfOk result (λ arcs. IsFirst star.now distances.old.source arcs t) }
    ensures same { distances.new ≡ distances.old }
{
    star.within_limits();
    let mut arcs = Vec::new(alloc);
    let mut at = t;
    let mut left = length;
    while left > 0 {
        let step = step_back(star, distances, at, left)?;
        arcs.push(step.arc)?;
        at = step.head;
        left -= step.length;
    }
    arcs.reverse();
    Ok(ArcList::from_vec(arcs))
}

/// The canonical shortest path from the source of these distances to `t`; none where no walk leads there. The distances may
/// be those of another graph in which they are the same, as the one that the links of a hierarchy form.
///
/// At each vertex of the path it asks for the distances of the tails of the arcs into it, by rising number, up to the arc
/// of the path. It takes 4 bytes an arc of the path, beside what the distances take. An `Err` leaves these as good as
/// before.
pub fn optimum_by(
    alloc: Global,
    star: &Star,
    distances: &mut DistancesFrom,
    t: Vertex,
) -> Result<Option<Optimum>, NoMemory>
    requires same { HaveSameDist star.now distances.old.graph }
    requires target { IsVertex star.now.vertices t }
    ensures found { IfOk result (λ best. IsOptimum star.now distances.old.source t best) }
    ensures short { IfOk result (λ best. IfSome best (λ o. o.length < 2 ^ 57)) }
    ensures same { distances.new ≡ distances.old }
{
    star.within_limits();
    let Some(length) = distances.distance(t)? else {
        return Ok(None);
    };
    let arcs = path_to(alloc, star, distances, t, length)?;
    Ok(Some(Optimum { length, arcs }))
}
