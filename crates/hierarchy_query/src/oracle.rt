ghost use Rattle.std.specs.Prelude.{◌≡◌, length, IfOk, IsOk};
ghost use Rattle.hierarchy_build.specs.Own.{own_graph};

use crate::climb::least_hill;
use crate::climb_memory::ClimbMemory;
use hierarchy_build::{Hierarchy, NO_LINK};
use road_model::{NoMemory, Oracle, Vertex};
use std::alloc::Global;
use std::marker::Model;
use std::sync::Arc;

/// An oracle that answers each question by two climbs in a hierarchy. Its graph is the one that the hierarchy's links
/// form, and it holds no other.
///
/// It keeps 16 bytes a vertex. A question takes no memory, and the time of the links above its two vertices.
#[derive(Drop)]
pub struct HierarchyOracle {
    hierarchy: Arc<Hierarchy, Global>,
    forward: Vec<u64>,
    backward: Vec<u64>,
    asked: u64,
    settled: u64,
}

impl Model for HierarchyOracle {
    ghost use Rattle.std.specs.Prelude.{length};
    ghost use Rattle.hierarchy_build.specs.Own.{own_graph};
    ghost use Rattle.road_model.specs.Oracles.{Questions};
    ghost use Rattle.hierarchy_query.specs.Asks.{AreBlank};

    ghost Value = { Questions };

    ghost view = { λ o. record { graph = own_graph o.hierarchy.value; asked = o.asked } };

    ghost invariant = { λ o. AreBlank (length o.hierarchy.value.shape.order) o.forward.items o.backward.items };
}

impl HierarchyOracle {
    /// An oracle by a hierarchy, not asked yet. It takes time linear in the vertices.
    pub fn new(
        alloc: Global,
        hierarchy: Arc<Hierarchy, Global>,
    ) -> Result<HierarchyOracle, NoMemory>
        ensures { IfOk result (λ o. o ≡ record { graph = own_graph hierarchy.value; asked = 0 }) }
    {
        let oracle = HierarchyOracle::in_memory(alloc, ClimbMemory::new(alloc), hierarchy)?;
        Ok(oracle)
    }

    /// The same in the memory of an earlier oracle. Where that was for as many vertices, it takes constant time and no
    /// memory. An `Err` gives the memory back to the allocator.
    pub fn in_memory(
        alloc: Global,
        memory: ClimbMemory,
        hierarchy: Arc<Hierarchy, Global>,
    ) -> Result<HierarchyOracle, NoMemory>
        ensures oracle { IfOk result (λ o. o ≡ record { graph = own_graph hierarchy.value; asked = 0 }) }
        ensures kept { memory ≡ length hierarchy.value.shape.order → IsOk result }
    {
        let ranks = hierarchy.shape().order.len();
        let ClimbMemory { forward, backward } = memory.prepared(alloc, ranks)?;
        Ok(HierarchyOracle {
            hierarchy,
            forward,
            backward,
            asked: 0,
            settled: 0,
        })
    }

    /// Its memory, for another oracle. Takes no memory itself.
    pub fn into_memory(self) -> ClimbMemory
        ensures { result ≡ self.graph.vertices }
    {
        let HierarchyOracle {
            forward,
            backward,
            ..
        } = self;
        ClimbMemory { forward, backward }
    }
}

impl Oracle for HierarchyOracle {
    ghost graph = { λ o. o.graph };

    ghost asked = { λ o. o.asked };

    fn distance(&mut self, from: Vertex, to: Vertex) -> Result<Option<u64>, NoMemory> {
        let hierarchy: &Hierarchy = &self.hierarchy;
        let shape = hierarchy.shape();
        let s = shape.rank.as_slice()[from.number() as usize] as usize;
        let t = shape.rank.as_slice()[to.number() as usize] as usize;
        let (best, passed) = least_hill(hierarchy, s, t, &mut self.forward, &mut self.backward);
        self.settled = self.settled.saturating_add(passed);
        self.asked = self.asked.saturating_add(1);
        if best >= NO_LINK {
            return Ok(None);
        }
        Ok(Some(best))
    }

    fn settled(&self) -> u64 {
        self.settled
    }
}
