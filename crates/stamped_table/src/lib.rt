//! Tables by place that are emptied in constant time, so that one memory serves many queries.
#![tactic(auto)]

mod table;
#[cfg(test)]
mod tests;

pub use table::{Stamped, Table};
