//! A road graph laid out for searches: the arcs of each vertex lie in one run, in both directions.
//!
//! What no change of a length touches takes 24 bytes an arc and 8 bytes a vertex: the ends by number 8 bytes, and in each
//! direction a record of 8 bytes an arc and a place of 4 bytes a vertex. It is shared by all stars that differ in lengths
//! alone. The lengths of a star take 12 bytes an arc.
#![tactic(auto)]

mod lengths;
mod side;
mod star;
mod topology;

pub use star::{Reversed, Star};
