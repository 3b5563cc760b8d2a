ghost use Rattle.std.specs.Prelude.{◌≡◌, ◌≤◌, length};
ghost use Rattle.road_model.specs.Graph.{IsGraph};
ghost use Rattle.road_model.specs.File.{IsWithinLimits};

use crate::{ArcRow, ArcRows};
use std::marker::Model;

/// The most vertices that a graph may have.
pub const MAX_VERTICES: u32 = 33554432;

/// The most arcs that a graph may have.
pub const MAX_ARCS: u32 = 67108864;

/// The greatest length of an arc.
pub const MAX_LENGTH: u64 = 4294967295;

/// A graph within the limits: at most [`MAX_VERTICES`] vertices and [`MAX_ARCS`] arcs, each end a vertex,
/// each length from 1 to [`MAX_LENGTH`]. It takes 16 bytes an arc.
#[derive(Debug, Drop)]
pub struct GraphFile {
    vertices: u32,
    arcs: ArcRows,
}

impl Model for GraphFile {
    ghost use Rattle.road_model.specs.Graph.{Graph};
    ghost use Rattle.road_model.specs.File.{IsWithinLimits};

    ghost Value = { Graph };

    ghost view = { λ f. record { vertices = f.vertices; arcs = f.arcs } };

    ghost invariant = { λ f. IsWithinLimits (record { vertices = f.vertices; arcs = f.arcs }) };
}

impl GraphFile {
    /// The graph of these arcs. Takes no memory.
    pub fn new(vertices: u32, arcs: ArcRows) -> GraphFile
        requires { IsWithinLimits (record { vertices = vertices; arcs = arcs }) }
        ensures { result ≡ record { vertices = vertices; arcs = arcs } }
    {
        GraphFile { vertices, arcs }
    }

    pub fn vertices(&self) -> u32
        ensures count { result ≡ self.now.vertices }
        ensures limits { IsWithinLimits self.now }
    {
        self.vertices
    }

    /// The arcs, in the order of their numbers.
    pub fn arcs(&self) -> &[ArcRow]
        ensures rows { result.now ≡ self.now.arcs }
        ensures limits { IsWithinLimits self.now }
    {
        self.arcs.as_slice()
    }

    /// The arcs back. Takes no memory.
    pub fn into_arcs(self) -> ArcRows
        ensures rows { result ≡ self.arcs }
        ensures limits { IsWithinLimits self }
    {
        let GraphFile { arcs, .. } = self;
        arcs
    }
}
