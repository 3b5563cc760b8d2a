//! Tests of a path as an alternative: how much it shares with the optimum, and how far it is stretched.
//!
//! The path is handed in as the places of a walk that is made of two shortest walks, joined at a via. Both
//! tests are exact: lengths are compared with a ratio by cross products.
#![tactic(auto)]

mod places;
mod rectangles;
mod sharing;
mod stretching;

pub use places::{distance_between, length_between};
pub use sharing::{shared, within_share};
pub use stretching::{is_stretch_bounded, stretch};
