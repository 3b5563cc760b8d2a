//! The rechecker: whether a certificate is right for a graph, whoever wrote it.
#![tactic(auto)]

mod across;
mod arcs;
mod basis;
mod best;
mod block;
mod block_table;
mod blocks;
mod blocks_at;
mod detours;
mod finding;
mod found;
mod lines;
mod links;
mod measures;
mod names;
mod near;
mod numbers;
mod order;
mod places;
mod query;
mod reasons;
mod routes;
mod row_table;
mod row_tests;
mod rows;
mod vias;
mod walks;
mod whole;

pub use whole::{Checked, recheck};
