//! Distances from one source, each worked out when it is first asked for.

ghost use Rattle.std.specs.Prelude.{◌≡◌, length, IfOk, IsOk};
ghost use Rattle.road_model.specs.Graph.{IsVertex};
ghost use Rattle.road_model.specs.Dist.{IsDist};
ghost use Rattle.hierarchy_build.specs.Own.{own_graph};

use crate::hill_memory::HillMemory;
use crate::least_hills::LeastHills;
use hierarchy_build::{Hierarchy, NO_LINK};
use road_model::{NoMemory, Vertex};
use std::alloc::Global;
use std::marker::Model;
use std::sync::Arc;

/// The distances from one source in the graph that a hierarchy's links form. Each is worked out when it is first
/// asked for, and kept.
///
/// It keeps 16 bytes a vertex, and 4 bytes a rank whose distance is worked out.
#[derive(Drop)]
pub struct DistancesFrom {
    hierarchy: Arc<Hierarchy, Global>,
    source: Vertex,
    hills: LeastHills,
}

impl Model for DistancesFrom {
    ghost use Rattle.hierarchy_build.specs.Own.{own_graph};
    ghost use Rattle.hierarchy_query.specs.Sources.{Source, IsAsking};

    ghost Value = { Source };

    ghost view = { λ d. record { graph = own_graph d.hierarchy.value; source = d.source } };

    ghost invariant = { λ d. IsAsking d.hierarchy.value d.source d.hills };
}

impl DistancesFrom {
    /// The distances from a vertex, none worked out yet. It takes time linear in the vertices.
    pub fn of(
        alloc: Global,
        hierarchy: Arc<Hierarchy, Global>,
        source: Vertex,
    ) -> Result<DistancesFrom, NoMemory>
        requires { IsVertex (own_graph hierarchy.value).vertices source }
        ensures { IfOk result (λ d. d ≡ record { graph = own_graph hierarchy.value; source = source }) }
    {
        let known = DistancesFrom::in_memory(alloc, HillMemory::new(alloc), hierarchy, source)?;
        Ok(known)
    }

    /// The same in the memory of earlier ones, also over another hierarchy. Where those were of as many vertices, it
    /// takes the time of the links above the source, and no memory. An `Err` gives the memory back to the allocator.
    pub fn in_memory(
        alloc: Global,
        memory: HillMemory,
        hierarchy: Arc<Hierarchy, Global>,
        source: Vertex,
    ) -> Result<DistancesFrom, NoMemory>
        requires { IsVertex (own_graph hierarchy.value).vertices source }
        ensures distances { IfOk result (λ d. d ≡ record { graph = own_graph hierarchy.value; source = source }) }
        ensures kept { memory ≡ length hierarchy.value.shape.order → IsOk result }
    {
        let shape = hierarchy.shape();
        let rank = shape.rank.as_slice()[source.number() as usize];
        let memory = memory.prepared(alloc, shape.order.len())?;
        let hills = LeastHills::in_memory(memory, &hierarchy, rank);
        Ok(DistancesFrom {
            hierarchy,
            source,
            hills,
        })
    }

    /// Its memory, for distances from another source. It takes no memory, and the time of the distances that were worked
    /// out and of the links above the source.
    pub fn into_memory(self) -> HillMemory
        ensures { result ≡ self.graph.vertices }
    {
        let DistancesFrom {
            hierarchy,
            hills,
            ..
        } = self;
        hills.into_memory(&hierarchy)
    }

    /// The distances from another vertex in place of these. It takes no memory, and the time of the distances that
    /// were worked out and of the links above both vertices.
    pub fn restart(&mut self, source: Vertex)
        requires { IsVertex self.old.graph.vertices source }
        ensures { self.new ≡ record { graph = self.old.graph; source = source } }
    {
        let hierarchy: &Hierarchy = &self.hierarchy;
        let rank = hierarchy.shape().rank.as_slice()[source.number() as usize];
        self.hills.restart(hierarchy, rank);
        self.source = source;
    }

    /// The distance of a vertex from the source; none where no walk leads to it. It takes the time of the links of
    /// those ranks above it whose distances aren't worked out yet, constant time where its own is. An `Err` leaves
    /// the distances that are.
    pub fn distance(&mut self, to: Vertex) -> Result<Option<u64>, NoMemory>
        requires { IsVertex self.old.graph.vertices to }
        ensures answer { IfOk result (λ d. IsDist self.old.graph self.old.source to d) }
        ensures same { self.new ≡ self.old }
    {
        let hierarchy: &Hierarchy = &self.hierarchy;
        let rank = hierarchy.shape().rank.as_slice()[to.number() as usize];
        let least = self.hills.length(hierarchy, rank)?;
        if least >= NO_LINK {
            return Ok(None);
        }
        Ok(Some(least))
    }
}
