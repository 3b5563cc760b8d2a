ghost use Rattle.std.specs.Prelude.{IfOk, All};
ghost use Rattle.road_model.specs.Graph.{IsVertex};
ghost use Rattle.hierarchy_build.specs.Own.{own_graph};
ghost use Rattle.hierarchy_query.specs.Tables.{AreDists};

use crate::distances::DistancesFrom;
use hierarchy_build::Hierarchy;
use road_model::{Items, NoMemory, Vertex};
use std::alloc::Global;
use std::sync::Arc;

/// Distances, in the order that the value's owner states; none where no walk leads.
pub type DistanceList = Items<Option<u64>>;

/// The distance from one vertex to each target, in its place, in the graph that the hierarchy's links form. It takes
/// time linear in the vertices to lay the memory out, and then that of one climb and of the links of the ranks above
/// the targets, each rank once.
pub fn one_to_many(
    alloc: Global,
    hierarchy: Arc<Hierarchy, Global>,
    from: Vertex,
    targets: &[Vertex],
) -> Result<DistanceList, NoMemory>
    requires from { IsVertex (own_graph hierarchy.value).vertices from }
    requires targets { All (IsVertex (own_graph hierarchy.value).vertices) targets.now }
    ensures { IfOk result (λ ds. AreDists (own_graph hierarchy.value) from targets.now ds) }
{
    let mut known = DistancesFrom::of(alloc, hierarchy, from)?;
    let mut distances = Vec::with_capacity(alloc, targets.len())?;
    for target in targets {
        let distance = known.distance(*target)?;
        distances.push(distance)?;
    }
    Ok(DistanceList::from_vec(distances))
}
