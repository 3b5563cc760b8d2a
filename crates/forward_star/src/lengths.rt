ghost use Rattle.std.specs.Prelude.{◌≡◌, None, IfOk};
ghost use Rattle.road_model.specs.Changes.{changed, fault_of};
ghost use Rattle.forward_star.specs.Layout.{graph_of, IsStar};

use crate::topology::Topology;
use road_model::{Change, NoMemory};
use std::alloc::Global;

/// The lengths of arcs: by number, and by place in the runs of their tails and of their heads. They take 12 bytes an arc.
#[derive(Drop)]
pub struct Lengths {
    pub by_number: Vec<u32>,
    pub by_tail: Vec<u32>,
    pub by_head: Vec<u32>,
}

impl Lengths {
    /// A copy.
    pub fn copied(&self, alloc: Global) -> Result<Lengths, NoMemory>
        ensures by_number { IfOk result (λ l. l.by_number.items ≡ self.now.by_number.items) }
        ensures by_tail { IfOk result (λ l. l.by_tail.items ≡ self.now.by_tail.items) }
        ensures by_head { IfOk result (λ l. l.by_head.items ≡ self.now.by_head.items) }
    {
        Ok(Lengths {
            by_number: Vec::from_slice(alloc, &self.by_number)?,
            by_tail: Vec::from_slice(alloc, &self.by_tail)?,
            by_head: Vec::from_slice(alloc, &self.by_head)?,
        })
    }

    /// Replaces the length of an arc.
    pub fn set(&mut self, topology: &Topology, change: Change)
        requires star { IsStar topology.now self.old }
        requires sound { fault_of (graph_of topology.now self.old) change ≡ None }
        ensures star { IsStar topology.now self.new }
        ensures changed { graph_of topology.now self.new ≡ changed (graph_of topology.now self.old) change }
    {
        let number = change.arc.number() as usize - 1;
        let length = change.length as u32;
        let out = topology.forward.place_of(&topology.tails, change.arc);
        let into = topology.backward.place_of(&topology.heads, change.arc);
        self.by_number[number] = length;
        self.by_tail[out] = length;
        self.by_head[into] = length;
    }
}
