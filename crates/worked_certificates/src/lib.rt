//! Tests of the rechecker, on certificates that were worked out by hand. No program uses this crate.
#![tactic(auto)]

#[cfg(test)]
mod building;
#[cfg(test)]
mod no_path;
#[cfg(test)]
mod paths;
