ghost use Rattle.std.specs.Prelude.{◌≡◌, ◌+◌, ◌-◌, ◌^◌, min, IfOk, OnOk, OnErr, ℕ};
ghost use Rattle.road_model.specs.Graph.{Graph, IsGraph, IsVertex};
ghost use Rattle.road_model.specs.Dist.{IsDist};

use crate::{NoMemory, Vertex};

/// Answers distances. It is an oracle for every graph that has the vertices and the distances of its own.
pub trait Oracle {
    /// Its own graph, which no call changes.
    ghost graph: { Self → Graph };

    /// How many questions it answered, up to the last value of its type.
    ghost asked: { Self → ℕ };

    /// The distance, and none exactly where no walk leads there. After an `Err` later answers are as exact.
    fn distance(&mut self, from: Vertex, to: Vertex) -> Result<Option<u64>, NoMemory>
        requires from { IsVertex (graph self.old).vertices from }
        requires to { IsVertex (graph self.old).vertices to }
        ensures answer { IfOk result (λ d. IsDist (graph self.old) from to d) }
        ensures same { graph self.new ≡ graph self.old }
        ensures counted { OnOk result (asked self.new ≡ min (asked self.old + 1) (2 ^ 64 - 1)) }
        ensures uncounted { OnErr result (asked self.new ≡ asked self.old) };

    /// How many vertices its searches took from a queue so far. No clause speaks of it.
    fn settled(&self) -> u64;
}
