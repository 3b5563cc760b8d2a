//! Tests of plans, of tests of paths and of ranks, on small graphs whose answers were worked out by hand.
#![tactic(auto)]

#[cfg(test)]
mod forked;
#[cfg(test)]
mod graphs;
#[cfg(test)]
mod plans;
#[cfg(test)]
mod walks;
