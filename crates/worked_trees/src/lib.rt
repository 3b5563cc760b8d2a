//! Tests of trees and plateaus, on small graphs whose answers were worked out by hand.
#![tactic(auto)]

#[cfg(test)]
mod plateau_lists;
#[cfg(test)]
mod tree_pairs;
