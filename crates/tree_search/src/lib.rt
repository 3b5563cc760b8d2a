//! Searches from one vertex of a road network: labels within a radius or up to a target, and an oracle.
//!
//! A search uses a memory that serves many searches: 8 bytes a vertex, laid out once. All else that a search
//! takes, in time and in memory, is what it visits.
#![tactic(auto)]

mod labels;
mod oracle;
mod ordering;
pub mod search;

pub use label_setting::SearchMemory;
pub use labels::{Ball, Labels};
pub use oracle::PlainOracle;
