//! What the two canonical trees alone say of the path through a vertex: how much it shares with the optimum, and
//! that it can't be admissible. No path is made.
#![tactic(auto)]

mod ancestors;
mod refusals;
mod sides;
mod sums;

pub use refusals::{Refusals, WayTables};
pub use sums::{SharedSums, SumTables};
