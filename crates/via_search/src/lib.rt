//! Plans: the optimum of a query, and every alternative to it, in rank order. Verdicts: why the path through a
//! vertex is, or isn't, among these.
//!
//! The paths within the stretch bound are found as the plateaus of two trees, without a path being made: the least
//! vertex of a plateau names its path. Those that share too much are told by sums along the trees, and most that
//! fail a test by the trees alone. Only what is left gets its arcs, and is put to the oracle at the place of its
//! name. A verdict is on the path through one vertex alone.
#![tactic(auto)]

mod candidates;
mod forked;
mod judging;
mod memory;
mod planning;
mod routes;
mod setting;
mod sifting;
mod verdicts;

pub use forked::{plan_forked, plan_forked_with};
pub use memory::PlanMemory;
pub use planning::{plan, plan_in, plan_with};
pub use verdicts::{verdict, verdict_in, verdict_with};
