//! Graph files: the `.gr` form of the shortest path challenge, read from any source and written to any sink.
#![tactic(auto)]

mod builder;
mod fast;
mod fault;
mod judge;
mod line;
mod read;
mod write;

pub use fault::{GraphError, GraphFault, GraphKind};
pub use line::{MAX_FILE, MAX_LINE};
pub use read::read_graph;
pub use write::write_graph;

#[cfg(test)]
mod tests;
