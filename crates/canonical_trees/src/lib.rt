//! The canonical shortest paths from a source and to a target: of all shortest walks the one whose arc numbers,
//! read backwards from a vertex that is reached, or forwards to the target, are least in dictionary order.
//!
//! A tree keeps labels and no arcs, in a memory that serves many queries. The arc of a vertex is found by a scan of
//! its arcs, at the first that is tight. A pair keeps the arcs that were found so where it is told to, so that a vertex
//! of many arcs is scanned once and not once for each of its neighbours.
#![tactic(auto)]

mod descent;
mod forked;
mod kept;
mod path;
mod tree_memory;
mod tree_pair;

pub use forked::trees_forked_in;
pub use path::{optimum, optimum_in, via_path};
pub use tree_memory::TreeMemory;
pub use tree_pair::{FromTree, ToTree, TreePair, tree_from, tree_to, trees, trees_in};
