ghost use Rattle.std.specs.Prelude.{◌≡◌, ◌<◌, ◌+◌, ◌^◌, [], ◌∷◌, ◌++◌, length, All, IfOk, IfSome};
ghost use Rattle.road_model.specs.Graph.{IsVertex};
ghost use Rattle.road_model.specs.Dist.{HaveSameDist};
ghost use Rattle.road_model.specs.Canonical.{IsOptimum};
ghost use Rattle.road_model.specs.Answers.{IsAnswer};
ghost use Rattle.road_model.specs.Changes.{after};
ghost use Rattle.road_model.specs.declared.planner.TheConstants.{LAST_VERSION};
ghost use Rattle.route_engine.specs.Lineage.{Serves, graph_of, number_of};
ghost use Rattle.route_engine.specs.Oracles.{asked_graph};

use crate::hierarchies::{hierarchy_of, renewed};
use crate::past::Past;
use crate::version_oracle::VersionOracle;
use crate::work::Work;
use canonical_trees::optimum_in;
use forward_star::Star;
use hierarchy_build::Hierarchy;
use hierarchy_optimum::optimum_by;
use hierarchy_query::{DistancesFrom, HierarchyOracle};
use road_model::{
    Change, ChangeFault, FreeGate, GraphFile, LAST_VERSION, NoMemory, Optimum, Plan, Planner,
    Query, Verdict, Version, Vertex,
};
use std::alloc::Global;
use std::marker::Model;
use std::sync::Arc;
use std::thread::Threads;
use tree_search::PlainOracle;
use via_search::{plan_forked_with, plan_with, verdict_with};

/// From so many arcs of its optimum on, a query is far.
const FAR: usize = 256;

/// How many oracles test the paths of a far query, each in a thread.
const PIECES: usize = 4;

fn is_far(optimum: &Option<Optimum>) -> bool {
    match optimum {
        Some(optimum) => optimum.arcs.len() >= FAR,
        None => false,
    }
}

/// A version of a graph, prepared for requests. To a clause it is the graph of version 1 and the batches since.
///
/// It keeps a star, of which the lengths, 12 bytes an arc, are its own, and the links of a hierarchy, 12 bytes a link that
/// is kept and 8 bytes a vertex. The rest of the star and the shape of the hierarchy all versions share, and so the lengths
/// of version 1 and the batches. Where version 1 got no hierarchy, no version has one, and plain searches answer.
#[derive(Drop)]
pub struct Prepared {
    base: Arc<Star, Global>,
    past: Past,
    star: Arc<Star, Global>,
    hierarchy: Option<Arc<Hierarchy, Global>>,
}

impl Model for Prepared {
    ghost use Rattle.std.specs.Prelude.{◌≡◌, IfSome};
    ghost use Rattle.road_model.specs.Changes.{after_all};
    ghost use Rattle.route_engine.specs.Lineage.{Lineage, Serves};

    ghost Value = { Lineage };

    ghost view = { λ v. record { base = v.base.value; history = v.past } };

    ghost invariant = { λ v. (v.star.value ≡ after_all v.base.value v.past)
        × IfSome v.hierarchy (λ h. Serves v.star.value h.value) };
}

impl Prepared {
    /// Version 1 of a graph.
    ///
    /// It lays out the star, in linear time, and makes the hierarchy at once, which takes nearly linear time on road
    /// networks: some milliseconds for thousands of vertices, and seconds for a million. Where the hierarchy is refused,
    /// as it would have too many links or triangles, or by want of memory, plain searches answer for good.
    pub fn from_file<R: Threads + Sync>(
        _rt: &R,
        alloc: Global,
        graph: GraphFile,
    ) -> Result<Prepared, NoMemory>
        ensures { IfOk result (λ v. v ≡ record { base = graph; history = [] }) }
    {
        let star = Star::build(alloc, graph)?;
        let hierarchy = hierarchy_of(alloc, &star);
        let star = Arc::new(alloc, star)?;
        let base = Arc::try_clone(&star)?;
        let past = Past::new(alloc)?;
        Ok(Prepared {
            base,
            past,
            star,
            hierarchy,
        })
    }

    /// The graph of version 1.
    pub fn base(&self) -> &Star
        ensures { result.now ≡ self.now.base }
    {
        &self.base
    }

    /// The graph of this version.
    pub fn star(&self) -> &Star
        ensures { result.now ≡ graph_of self.now }
    {
        &self.star
    }

    /// The batches that were published since version 1.
    pub fn history(&self) -> &Past
        ensures { result.now ≡ self.now.history }
    {
        &self.past
    }

    // The version that has this star, after these changes.
    fn followed_by(
        &self,
        alloc: Global,
        star: Star,
        changes: &[Change],
    ) -> Result<Prepared, NoMemory>
        requires star { star ≡ after (graph_of self.now) changes.now }
        requires room { length self.now.history + 1 < LAST_VERSION }
        ensures { IfOk result (λ v. v ≡ record { base = self.now.base; history = self.now.history ++ changes.now ∷ [] }) }
    {
        let hierarchy = renewed(alloc, &self.hierarchy, &star)?;
        let past = self.past.with(alloc, changes)?;
        let star = Arc::new(alloc, star)?;
        let base = Arc::try_clone(&self.base)?;
        Ok(Prepared {
            base,
            past,
            star,
            hierarchy,
        })
    }

    // The optimum, by distances over the hierarchy, or by a plain search where there is none.
    fn optimum(
        &self,
        alloc: Global,
        work: &mut Work,
        from: Vertex,
        to: Vertex,
    ) -> Result<Option<Optimum>, NoMemory>
        requires source { IsVertex (graph_of self.now).vertices from }
        requires target { IsVertex (graph_of self.now).vertices to }
        ensures found { IfOk result (λ best. IsOptimum (graph_of self.now) from to best) }
        ensures short { IfOk result (λ best. IfSome best (λ o. o.length < 2 ^ 57)) }
    {
        let star = self.star();
        let Some(hierarchy) = &self.hierarchy else {
            return optimum_in(alloc, &mut work.plans.trees, star, from, to);
        };
        let hierarchy = Arc::try_clone(hierarchy)?;
        let memory = work.take_hills(alloc);
        let mut distances = DistancesFrom::in_memory(alloc, memory, hierarchy, from)?;
        let best = optimum_by(alloc, star, &mut distances, to);
        work.keep_hills(distances);
        best
    }

    /// An oracle for the graph of this version: climbs in its hierarchy, or plain searches where there is none. Its memory
    /// is taken from `work`, and `Work::keep` gives it back.
    pub fn oracle(&self, alloc: Global, work: &mut Work) -> Result<VersionOracle<'_>, NoMemory>
        ensures { IfOk result (λ o. HaveSameDist (graph_of self.now) (asked_graph o)) }
    {
        match &self.hierarchy {
            Some(hierarchy) => {
                let hierarchy = Arc::try_clone(hierarchy)?;
                let memory = work.take_climbs(alloc);
                let oracle = HierarchyOracle::in_memory(alloc, memory, hierarchy)?;
                Ok(VersionOracle::Climbing(oracle))
            }
            None => {
                let star = self.star();
                star.within_limits();
                let memory = work.take_searches(alloc);
                let oracle = PlainOracle::in_memory(alloc, memory, star)?;
                Ok(VersionOracle::Plain(oracle))
            }
        }
    }

    // Oracles over the hierarchy, one for each piece of a far query.
    fn climbing(
        &self,
        alloc: Global,
        work: &mut Work,
        hierarchy: &Arc<Hierarchy, Global>,
    ) -> Result<Vec<HierarchyOracle>, NoMemory>
        requires { Serves (graph_of self.now) hierarchy.now.value }
        ensures many { IfOk result (λ os. length os.items ≡ 4) }
        ensures same { IfOk result (λ os. All (λ o. HaveSameDist (graph_of self.now) o.graph) os.items) }
    {
        let mut oracles = Vec::with_capacity(alloc, PIECES)?;
        for _ in 0..PIECES {
            let hierarchy = Arc::try_clone(hierarchy)?;
            let memory = work.take_climbs(alloc);
            let oracle = HierarchyOracle::in_memory(alloc, memory, hierarchy)?;
            oracles.push(oracle)?;
        }
        Ok(oracles)
    }

    // The plan of a far query, by several threads.
    fn plan_far<R: Threads + Sync>(
        &self,
        rt: &R,
        alloc: Global,
        query: &Query,
        work: &mut Work,
        hierarchy: &Arc<Hierarchy, Global>,
        optimum: Option<Optimum>,
    ) -> Result<Plan, NoMemory>
        requires source { IsVertex (graph_of self.now).vertices query.now.from }
        requires target { IsVertex (graph_of self.now).vertices query.now.to }
        requires serves { Serves (graph_of self.now) hierarchy.now.value }
        requires optimum { IsOptimum (graph_of self.now) query.now.from query.now.to optimum }
        requires short { IfSome optimum (λ o. o.length < 2 ^ 57) }
        ensures { IfOk result (IsAnswer (graph_of self.now) query.now) }
    {
        let star = self.star();
        let mut oracles = self.climbing(alloc, work, hierarchy)?;
        let plan = plan_forked_with(
            rt,
            alloc,
            &FreeGate,
            &mut work.plans,
            star,
            oracles.as_mut_slice(),
            query,
            optimum,
        );
        for oracle in oracles {
            work.keep_climbs(oracle);
        }
        plan
    }

    /// The plan of a query, which adds to `work.settled()` what its oracles settled.
    ///
    /// It takes what `plan_with` takes. The optimum is found by distances over the hierarchy, in the time of the links above
    /// the vertices of its path and above the tails of arcs into it, and questions are answered by climbs; where there is no
    /// hierarchy, plain searches do both. Where the optimum has 256 arcs or more and there is a hierarchy, four threads share
    /// the work, as `plan_forked_with` does it.
    pub fn plan_counted<R: Threads + Sync>(
        &self,
        rt: &R,
        alloc: Global,
        query: &Query,
        work: &mut Work,
    ) -> Result<Plan, NoMemory>
        requires source { IsVertex (graph_of self.now).vertices query.now.from }
        requires target { IsVertex (graph_of self.now).vertices query.now.to }
        ensures { IfOk result (IsAnswer (graph_of self.now) query.now) }
    {
        let star = self.star();
        let optimum = self.optimum(alloc, work, query.from, query.to)?;
        match &self.hierarchy {
            Some(hierarchy) if is_far(&optimum) => {
                return self.plan_far(rt, alloc, query, work, hierarchy, optimum);
            }
            _ => {}
        }
        let mut oracle = self.oracle(alloc, work)?;
        let plan = plan_with(alloc, &mut work.plans, star, &mut oracle, query, optimum);
        work.keep(oracle);
        plan
    }
}

impl Planner for Prepared {
    type Work = Work;

    ghost graph = { graph_of };

    ghost version = { number_of };

    fn work(alloc: Global) -> Work {
        Work::new(alloc)
    }

    fn number(&self) -> u64 {
        self.past.len() as u64 + 1
    }

    fn vertices(&self) -> u32 {
        self.star().vertices()
    }

    fn arcs(&self) -> u32 {
        self.star().arc_count()
    }

    fn best<R: Threads + Sync>(
        &self,
        _rt: &R,
        alloc: Global,
        work: &mut Work,
        from: Vertex,
        to: Vertex,
    ) -> Result<Option<Optimum>, NoMemory> {
        self.optimum(alloc, work, from, to)
    }

    fn plan<R: Threads + Sync>(
        &self,
        rt: &R,
        alloc: Global,
        work: &mut Work,
        query: &Query,
    ) -> Result<Plan, NoMemory> {
        self.plan_counted(rt, alloc, query, work)
    }

    fn verdict<R: Threads + Sync>(
        &self,
        _rt: &R,
        alloc: Global,
        work: &mut Work,
        query: &Query,
        via: Vertex,
    ) -> Result<Option<Verdict>, NoMemory> {
        let star = self.star();
        let optimum = self.optimum(alloc, work, query.from, query.to)?;
        let mut oracle = self.oracle(alloc, work)?;
        let verdict = verdict_with(
            alloc,
            &mut work.plans,
            star,
            &mut oracle,
            query,
            optimum,
            via,
        );
        work.keep(oracle);
        verdict
    }
}

impl Version for Prepared {
    ghost use Rattle.std.specs.Prelude.{refl};

    ghost base = { λ v. v.base };

    ghost history = { λ v. v.history };

    /// A version takes the time to copy the lengths of the star, that of customising the hierarchy, and constant time more,
    /// about a thousand copied handles. Where memory for its hierarchy is refused, so is the version.
    fn after<R: Threads + Sync>(
        &self,
        _rt: &R,
        alloc: Global,
        changes: &[Change],
    ) -> Result<Prepared, ChangeFault> {
        let star = self.star().with(alloc, changes)?;
        if self.past.len() as u64 == LAST_VERSION - 1 {
            return Err(ChangeFault::Full);
        }
        let next = self.followed_by(alloc, star, changes)?;
        Ok(next)
    }

    ghost has_graph = { λ v. refl };

    ghost has_number = { λ v. refl };
}
