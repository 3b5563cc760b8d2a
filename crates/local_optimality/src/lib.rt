//! The test of local optimality: every subpath of a walk that is short enough has to be a shortest walk.
//!
//! The walk is handed in as the places of two shortest walks, joined at a via.
#![tactic(auto)]

mod detours;
mod optimality;
mod tested;

pub use optimality::{is_local, local};
