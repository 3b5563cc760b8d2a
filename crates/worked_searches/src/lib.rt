//! Tests of stars and searches, on small graphs whose answers were worked out by hand.
#![tactic(auto)]

#[cfg(test)]
mod searches;
#[cfg(test)]
mod stars;
