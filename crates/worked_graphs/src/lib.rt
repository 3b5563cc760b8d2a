//! Small graphs, on which tests were worked out by hand, and what makes a graph or a star of its arcs. No program uses this crate.
#![tactic(auto)]

mod building;
mod graphs;
mod picking;

pub use building::{graph_of, star_of};
pub use graphs::{A, Arcs, B, C, D, LONG, PARALLEL, STUB};
pub use picking::vertex_of;
