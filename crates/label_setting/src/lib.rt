//! Dijkstra's algorithm from one vertex: a queue of entries by distance, and a memory of labels that serves many
//! searches and is reset in the time of what the search before touched.
#![tactic(auto)]

mod memory;
mod queue;

pub use memory::{FAR, Goal, SearchMemory};
pub use queue::{Entry, Queue};

#[cfg(test)]
mod tests;
