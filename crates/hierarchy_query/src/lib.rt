//! Distances of a road graph by its hierarchy.
#![tactic(auto)]

mod climb;
mod climb_memory;
mod distances;
mod hill_memory;
mod least_hills;
mod oracle;
mod tables;

pub use climb_memory::ClimbMemory;
pub use distances::DistancesFrom;
pub use hill_memory::HillMemory;
pub use oracle::HierarchyOracle;
pub use tables::{DistanceList, one_to_many};
