//! The order in which a hierarchy contracts the vertices of a road graph.
#![tactic(auto)]

mod numbers;
mod order;
mod quotient;
mod taking;
mod tree;

pub use order::{Order, order_of};
pub use taking::order_by;

#[cfg(test)]
mod tests;
