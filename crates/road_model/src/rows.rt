use crate::{ArcNo, Items, Vertex};

/// A directed arc. Its length is in the graph's whole units.
#[derive(Clone, Copy, Debug, PartialEq, Eq)]
pub struct ArcRow {
    pub tail: Vertex,
    pub head: Vertex,
    pub length: u64,
}

/// Arc numbers, in the order of a walk.
pub type ArcList = Items<ArcNo>;

/// The arcs of a graph, in the order of their numbers.
pub type ArcRows = Items<ArcRow>;

/// Vertices, in the order that the value's owner states.
pub type VertexList = Items<Vertex>;

/// Lengths, in the order that the value's owner states.
pub type SumList = Items<u64>;
