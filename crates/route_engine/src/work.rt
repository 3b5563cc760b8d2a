use crate::version_oracle::VersionOracle;
use hierarchy_query::{ClimbMemory, DistancesFrom, HierarchyOracle, HillMemory};
use road_model::Oracle;
use std::alloc::Global;
use std::marker::Model;
use std::mem;
use tree_search::SearchMemory;
use via_search::PlanMemory;

/// The memory of requests, kept from one to the next. It serves every version of every graph, and tells nothing of the
/// requests before.
///
/// It keeps what `PlanMemory` keeps. Where hierarchies answer, it keeps 16 bytes a vertex for questions, four times that
/// after a far plan, and 16 bytes a vertex and a little more for optima; elsewhere 8 bytes a vertex and what the largest
/// search so far needed. A request takes memory for these only where those before were over another number of vertices.
#[derive(Drop)]
pub struct Work {
    pub(crate) plans: PlanMemory,
    climbs: Vec<ClimbMemory>,
    hills: HillMemory,
    searches: SearchMemory,
    settled: u64,
}

impl Model for Work {
    ghost use Rattle.label_setting.specs.Search.{IsTracked};

    ghost Value = { Unit {0} };

    ghost view = { λ _. tt };

    ghost invariant = { λ w. IsTracked w.searches.labels.items w.searches.touched.items };
}

impl Work {
    ghost use Rattle.label_setting.specs.Search.{IsTracked};

    /// Memory for no graph yet: the first request lays it out. Takes no memory itself.
    pub fn new(alloc: Global) -> Work {
        Work {
            plans: PlanMemory::new(alloc),
            climbs: Vec::new(alloc),
            hills: HillMemory::new(alloc),
            searches: SearchMemory::new(alloc),
            settled: 0,
        }
    }

    /// How many vertices the oracles of all requests have settled, or passed where they climbed, up to the last value of
    /// its type. What is visited for an optimum isn't counted.
    pub fn settled(&self) -> u64 {
        self.settled
    }

    /// The memory of climbs for one more oracle; an empty one where none is kept.
    pub(crate) fn take_climbs(&mut self, alloc: Global) -> ClimbMemory {
        match self.climbs.pop() {
            Some(memory) => memory,
            None => ClimbMemory::new(alloc),
        }
    }

    /// The memory of optima over hierarchies; an empty one stays in its place.
    pub(crate) fn take_hills(&mut self, alloc: Global) -> HillMemory {
        mem::replace(&mut self.hills, HillMemory::new(alloc))
    }

    /// Keeps the memory of the distances that an optimum was found by.
    pub(crate) fn keep_hills(&mut self, distances: DistancesFrom) {
        self.hills = distances.into_memory();
    }

    /// The memory of plain searches; an empty one stays in its place.
    pub(crate) fn take_searches(&mut self, alloc: Global) -> SearchMemory
        ensures { IsTracked result.labels.items result.touched.items }
    {
        mem::replace(&mut self.searches, SearchMemory::new(alloc))
    }

    /// Keeps the memory of an oracle, and counts what it settled.
    pub fn keep(&mut self, oracle: VersionOracle<'_>) {
        match oracle {
            VersionOracle::Climbing(oracle) => self.keep_climbs(oracle),
            VersionOracle::Plain(oracle) => {
                self.settled = self.settled.saturating_add(oracle.settled());
                self.searches = oracle.into_memory();
            }
        }
    }

    /// Keeps the memory of climbs, and counts what was settled.
    pub(crate) fn keep_climbs(&mut self, oracle: HierarchyOracle) {
        self.settled = self.settled.saturating_add(oracle.settled());
        // Where there is no room in the list, a later request lays the memory out anew.
        let _ = self.climbs.push(oracle.into_memory());
    }
}
