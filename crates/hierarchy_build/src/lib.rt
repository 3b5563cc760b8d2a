//! A customisable contraction hierarchy of a road graph.
#![tactic(auto)]

mod base;
mod hierarchy;
mod links;
mod networks;
mod pending;
mod pull;
mod push;
mod shape;

pub use hierarchy::{Hierarchy, NO_LINK, contract, customise};
pub use links::Links;
pub use networks::{Falling, Rising};
pub use shape::Shape;
