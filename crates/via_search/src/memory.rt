use canonical_trees::TreeMemory;
use std::alloc::Global;
use tree_tests::{SumTables, WayTables};

/// The memory of plans and verdicts, for one query after another. It tells nothing of the queries before.
///
/// It keeps 112 bytes a vertex, 32 of them for the steps of the two trees, and what the largest searches so far needed.
#[derive(Drop)]
pub struct PlanMemory {
    /// That of the searches, which serves for an optimum alone too.
    pub trees: TreeMemory,
    pub(crate) sums: SumTables,
    pub(crate) ways: WayTables,
}

impl PlanMemory {
    /// A memory for no graph yet: the first query over a graph lays it out. Takes no memory itself.
    pub fn new(alloc: Global) -> PlanMemory {
        PlanMemory {
            trees: TreeMemory::new(alloc),
            sums: SumTables::new(alloc),
            ways: WayTables::new(alloc),
        }
    }
}
