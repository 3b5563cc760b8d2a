//! The plateaus of a pair of canonical trees: the parts of paths that both trees share, each with the vertices that one
//! walk leads through.
//!
//! The walks through two vertices are one walk where the arcs between them are in both trees. Such an arc is a link
//! from its tail to its head, so each plateau is a chain of links, and is found from its first vertex, into which
//! no link leads. No walk is made, and none compared.
#![tactic(auto)]

mod chains;
mod finding;
mod links;
mod plateau;

pub use finding::{plateau_of, plateau_through, plateaus, plateaus_forked, plateaus_within};
pub use plateau::{Plateau, PlateauList};
