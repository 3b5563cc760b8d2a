//! The plain data of a road network, and the traits that searches, oracles and plans are written against.
//!
//! `specs/` has the definitions of walks, distances, canonical paths and admissible alternatives that every
//! crate above cites.
#![tactic(auto)]

mod answer;
mod change;
mod gate;
mod graph_file;
mod items;
mod network;
mod number;
mod oracle;
mod pinned;
mod planner;
mod ratio;
mod request;
mod rows;
mod trail;

pub use answer::{Optimum, PageSpan, Pair, Plan, Query, Route, RouteList, Verdict};
pub use change::{Batch, Change, ChangeFault};
pub use gate::{FreeGate, Gate};
pub use graph_file::{GraphFile, MAX_ARCS, MAX_LENGTH, MAX_VERTICES};
pub use items::Items;
pub use network::{Network, Step};
pub use number::{ArcNo, Vertex};
pub use oracle::Oracle;
pub use pinned::Pinned;
pub use planner::{LAST_VERSION, Planner, Version};
pub use ratio::{Ratio, RatioFault};
pub use request::{Cursor, CursorQuery, ErrorKind, Reply, Request};
pub use rows::{ArcList, ArcRow, ArcRows, SumList, VertexList};
pub use trail::Trail;

/// Memory was refused. Nothing else is told by it.
pub type NoMemory = std::alloc::AllocError;

#[cfg(test)]
mod tests;
