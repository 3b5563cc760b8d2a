//! The versions of a road graph, each prepared for requests: its star, its hierarchy, and the batches that led to it.
#![tactic(auto)]

mod hierarchies;
mod past;
mod prepared;
mod shared_items;
mod version_oracle;
mod work;

pub use past::Past;
pub use prepared::Prepared;
pub use shared_items::SharedItems;
pub use version_oracle::VersionOracle;
pub use work::Work;

#[cfg(test)]
mod tests;
