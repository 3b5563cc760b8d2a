ghost use Rattle.std.specs.Prelude.{◌≡◌, ◌^◌, IfOk};
ghost use Rattle.road_model.specs.Graph.{LengthsBelow};
ghost use Rattle.road_model.specs.Dist.{DistsBelow};
ghost use Rattle.label_setting.specs.Search.{IsTracked};

use label_setting::{Goal, SearchMemory};
use road_model::{Network, NoMemory, Oracle, Vertex};
use std::alloc::Global;
use std::marker::Model;

/// An oracle that answers each question by a search, and needs nothing beforehand.
///
/// It keeps 8 bytes a vertex, and what the largest search so far needed; a question costs what its search
/// visits.
#[derive(Drop)]
pub struct PlainOracle<'a, N: Network> {
    net: &'a N,
    memory: SearchMemory,
    asked: u64,
}

impl<'a, N: Network> Model for PlainOracle<'a, N> {
    ghost use Rattle.road_model.specs.Oracles.{Questions};
    ghost use Rattle.tree_search.specs.Oracle.{IsReady};

    ghost Value = { Questions };

    ghost view = { λ o. record { graph = N.graph o.net.now; asked = o.asked } };

    ghost invariant = { λ o. IsReady (N.graph o.net.now) o.memory };
}

impl<'a, N: Network> PlainOracle<'a, N> {
    /// An oracle for a network, not asked yet.
    pub fn new(alloc: Global, net: &'a N) -> Result<PlainOracle<'a, N>, NoMemory>
        requires short { LengthsBelow (N.graph net.now) (2 ^ 57) }
        requires near { DistsBelow (N.graph net.now) (2 ^ 57) }
        ensures { IfOk result (λ o. o ≡ record { graph = N.graph net.now; asked = 0 }) }
    {
        let oracle = PlainOracle::in_memory(alloc, SearchMemory::new(alloc), net)?;
        Ok(oracle)
    }

    /// The same in the memory of an earlier search or oracle, which counts anew what it settles. Labels are laid out
    /// anew only where they are those of another number of vertices. An `Err` gives the memory back to the allocator.
    pub fn in_memory(
        alloc: Global,
        memory: SearchMemory,
        net: &'a N,
    ) -> Result<PlainOracle<'a, N>, NoMemory>
        requires tracked { IsTracked memory.labels.items memory.touched.items }
        requires short { LengthsBelow (N.graph net.now) (2 ^ 57) }
        requires near { DistsBelow (N.graph net.now) (2 ^ 57) }
        ensures { IfOk result (λ o. o ≡ record { graph = N.graph net.now; asked = 0 }) }
    {
        let mut memory = memory;
        memory.prepare(alloc, net.vertices())?;
        memory.settled = 0;
        Ok(PlainOracle {
            net,
            memory,
            asked: 0,
        })
    }

    /// Its memory, for another search or oracle. Takes no memory itself.
    pub fn into_memory(self) -> SearchMemory
        ensures { IsTracked result.labels.items result.touched.items }
    {
        let PlainOracle { memory, .. } = self;
        memory
    }
}

impl<'a, N: Network> Oracle for PlainOracle<'a, N> {
    ghost graph = { λ o. o.graph };

    ghost asked = { λ o. o.asked };

    fn distance(&mut self, from: Vertex, to: Vertex) -> Result<Option<u64>, NoMemory> {
        self.memory.reset();
        let goal = Goal {
            root: from.number(),
            target: to.number(),
            radius: 144115188075855871,
        };
        let limit = self.memory.run(self.net, goal)?;
        self.asked = self.asked.saturating_add(1);
        let label = self.memory.labels[to.number() as usize];
        if label > limit {
            return Ok(None);
        }
        Ok(Some(label))
    }

    fn settled(&self) -> u64 {
        self.memory.settled
    }
}
