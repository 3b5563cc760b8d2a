ghost use Rattle.std.specs.Prelude.{◌≡◌, ◌+◌, ◌++◌, ℕ, List, [], ◌∷◌, length, None, IfOk, IfErr};
ghost use Rattle.std.specs.Thread.{IsSync};
ghost use Rattle.road_model.specs.declared.change.Change.{Change};
ghost use Rattle.road_model.specs.Graph.{Graph, IsVertex, arc_count};
ghost use Rattle.road_model.specs.Canonical.{IsOptimum};
ghost use Rattle.road_model.specs.Answers.{IsAnswer};
ghost use Rattle.road_model.specs.Verdicts.{IsVerdictOf};
ghost use Rattle.road_model.specs.Changes.{after_all};
ghost use Rattle.road_model.specs.Versions.{version_fault, IsRefusedAs};

use crate::{Change, ChangeFault, NoMemory, Optimum, Plan, Query, Verdict, Vertex};
use std::alloc::Global;
use std::thread::Threads;

/// The number of the last version that there may be.
pub const LAST_VERSION: u64 = 1048576;

/// Answers about one version of a graph. No call changes it. A call that is handed `rt` may start threads on it.
pub trait Planner {
    /// The memory that its searches use, which a caller keeps from request to request. It serves every planner of this
    /// type, and no answer depends on what it served before.
    type Work: Drop;

    /// The graph that it speaks of.
    ghost graph: { Self → Graph };

    /// The number of the version.
    ghost version: { Self → ℕ };

    /// Memory for searches, with nothing laid out yet. Takes no memory itself.
    fn work(alloc: Global) -> Self::Work;

    /// The number of the version, from 1 on.
    fn number(&self) -> u64
        ensures { result ≡ version self.now };

    /// How many vertices the graph has; they are 1 to that number.
    fn vertices(&self) -> u32
        ensures { result ≡ (graph self.now).vertices };

    /// How many arcs it has; they are 1 to that number.
    fn arcs(&self) -> u32
        ensures { result ≡ arc_count (graph self.now) };

    /// The canonical optimum, and none exactly where no walk leads from source to target.
    fn best<R: Threads + Sync>(
        &self,
        rt: &R,
        alloc: Global,
        work: &mut Self::Work,
        from: Vertex,
        to: Vertex,
    ) -> Result<Option<Optimum>, NoMemory>
        requires sync { IsSync R.row }
        requires source { IsVertex (graph self.now).vertices from }
        requires target { IsVertex (graph self.now).vertices to }
        ensures { IfOk result (λ o. IsOptimum (graph self.now) from to o) };

    /// The optimum and exactly the alternatives, in rank order.
    fn plan<R: Threads + Sync>(
        &self,
        rt: &R,
        alloc: Global,
        work: &mut Self::Work,
        query: &Query,
    ) -> Result<Plan, NoMemory>
        requires sync { IsSync R.row }
        requires source { IsVertex (graph self.now).vertices query.now.from }
        requires target { IsVertex (graph self.now).vertices query.now.to }
        ensures { IfOk result (λ p. IsAnswer (graph self.now) query.now p) };

    /// The verdict on a via vertex, and none exactly where no walk leads from source to target.
    fn verdict<R: Threads + Sync>(
        &self,
        rt: &R,
        alloc: Global,
        work: &mut Self::Work,
        query: &Query,
        via: Vertex,
    ) -> Result<Option<Verdict>, NoMemory>
        requires sync { IsSync R.row }
        requires source { IsVertex (graph self.now).vertices query.now.from }
        requires target { IsVertex (graph self.now).vertices query.now.to }
        requires via { IsVertex (graph self.now).vertices via }
        ensures { IfOk result (λ v. IsVerdictOf (graph self.now) query.now via v) };
}

/// A version of a graph whose lengths change: a base graph and the batches that were published since.
pub trait Version: Planner {
    /// The graph of version 1.
    ghost base: { Self → Graph };

    /// The batches, the first published first.
    ghost history: { Self → List (List Change) };

    /// The version after one more batch. This one stays as it is.
    ///
    /// The first failing change decides between `ArcRange` and `LengthRange`; else `Full` comes exactly where the number
    /// is [`LAST_VERSION`].
    fn after<R: Threads + Sync>(
        &self,
        rt: &R,
        alloc: Global,
        changes: &[Change],
    ) -> Result<Self, ChangeFault>
        requires sync { IsSync R.row }
        ensures base { IfOk result (λ v. base v ≡ base self.now) }
        ensures history { IfOk result (λ v. history v ≡ history self.now ++ changes.now ∷ []) }
        ensures accepted { IfOk result (λ v. version_fault (Self.graph self.now) (Self.version self.now) changes.now ≡ None) }
        ensures refused { IfErr result (IsRefusedAs (version_fault (Self.graph self.now) (Self.version self.now) changes.now)) };

    /// Its graph is the base graph after the batches.
    ghost has_graph: { (v : Self) → Self.graph v ≡ after_all (base v) (history v) };

    /// Its number is one more than the count of batches.
    ghost has_number: { (v : Self) → Self.version v ≡ length (history v) + 1 };
}
