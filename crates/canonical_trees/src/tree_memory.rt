use crate::kept::{KeptStep, no_steps};
use stamped_table::Table;
use std::alloc::Global;
use std::marker::Model;
use tree_search::SearchMemory;

/// The memory of the two searches of a query, and of the steps that it keeps, for one query after another. It tells
/// nothing of the queries before.
///
/// It keeps 16 bytes a vertex, 32 more once steps were kept, and what the largest searches so far needed.
#[derive(Drop)]
pub struct TreeMemory {
    pub(crate) from: SearchMemory,
    pub(crate) to: SearchMemory,
    pub(crate) from_steps: Table<KeptStep>,
    pub(crate) to_steps: Table<KeptStep>,
}

impl Model for TreeMemory {
    ghost use Rattle.label_setting.specs.Search.{IsTracked};

    ghost Value = { Unit {0} };

    ghost view = { λ _. tt };

    ghost invariant = { λ m. IsTracked m.from.labels.items m.from.touched.items
        × IsTracked m.to.labels.items m.to.touched.items };
}

impl TreeMemory {
    /// A memory for no graph yet: the first query over a graph lays it out. Takes no memory itself.
    pub fn new(alloc: Global) -> TreeMemory {
        TreeMemory {
            from: SearchMemory::new(alloc),
            to: SearchMemory::new(alloc),
            from_steps: no_steps(alloc),
            to_steps: no_steps(alloc),
        }
    }
}
