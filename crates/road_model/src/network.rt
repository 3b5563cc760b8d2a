ghost use Rattle.std.specs.Prelude.{◌≡◌};
ghost use Rattle.road_model.specs.Graph.{Graph, IsGraph, arc_at, step_at};

use crate::{ArcNo, ArcRow, Vertex};

/// An arc, seen from its tail.
#[derive(Clone, Copy, Debug, PartialEq, Eq)]
pub struct Step {
    pub arc: ArcNo,
    pub head: Vertex,
    pub length: u64,
}

/// A directed graph that a search can walk on. No call takes memory.
pub trait Network {
    /// The graph that it gives.
    ghost graph: { Self → Graph };

    /// How many vertices it has; they are 1 to that number.
    fn vertices(&self) -> u32
        ensures count { result ≡ (graph self.now).vertices }
        ensures sound { IsGraph (graph self.now) };

    /// The `i`-th arc out of `v`, counted from 0, by rising arc number; none after the last.
    fn out(&self, v: Vertex, i: u32) -> Option<Step>
        ensures { result ≡ step_at (graph self.now) v i };

    /// The arc of a number.
    fn arc(&self, a: ArcNo) -> Option<ArcRow>
        ensures { result ≡ arc_at (graph self.now) a };
}
