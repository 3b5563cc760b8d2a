//! The plan of a query.

ghost use Rattle.std.specs.Prelude.{◌≡◌, ◌<◌, ◌^◌, IfOk, IfSome};
ghost use Rattle.road_model.specs.Graph.{IsVertex};
ghost use Rattle.road_model.specs.Dist.{HaveSameDist};
ghost use Rattle.road_model.specs.Canonical.{IsOptimum};
ghost use Rattle.road_model.specs.Answers.{IsAnswer};
ghost use Rattle.via_search.specs.Judging.{StaysCounted};
ghost use Rattle.via_search.specs.Asks.{AsksForPlan};

use crate::memory::PlanMemory;
use crate::routes::alternatives;
use canonical_trees::optimum_in;
use forward_star::Star;
use road_model::{NoMemory, Optimum, Oracle, Plan, Query};
use std::alloc::Global;

/// The whole answer of a query whose optimum is known: no path exactly where no walk leads there; else the optimum, and
/// every other admissible single-via path once, in rank order.
///
/// It takes two searches up to the stretch bound of the optimum, in the memory that is handed in and kept for the next
/// query. That has 112 bytes a vertex, which are laid out once: a plan takes the time of what its searches visit, and
/// beside the memory 4 bytes an arc of each path that is listed. The steps of the trees are looked up once for each vertex,
/// and then kept. What a path shares is told by sums along the trees, and most that fail a test by the trees alone; each
/// path that is left is put to the oracle once. An `Err` leaves the oracle as good as before, and at worst an empty memory.
pub fn plan_with<O: Oracle>(
    alloc: Global,
    memory: &mut PlanMemory,
    star: &Star,
    oracle: &mut O,
    query: &Query,
    optimum: Option<Optimum>,
) -> Result<Plan, NoMemory>
    requires source { IsVertex star.now.vertices query.now.from }
    requires target { IsVertex star.now.vertices query.now.to }
    requires same { HaveSameDist star.now (O.graph oracle.old) }
    requires optimum { IsOptimum star.now query.now.from query.now.to optimum }
    requires short { IfSome optimum (λ o. o.length < 2 ^ 57) }
    ensures answer { IfOk result (IsAnswer star.now query.now) }
    ensures same { O.graph oracle.new ≡ O.graph oracle.old }
    ensures counted { StaysCounted (O.asked oracle.old) (O.asked oracle.new) }
    ensures asks { AsksForPlan star.now query.now (O.asked oracle.old) (O.asked oracle.new) }
{
    star.within_limits();
    let Some(optimum) = optimum else {
        return Ok(Plan::NoPath);
    };
    let others = alternatives(alloc, memory, star, oracle, query, &optimum)?;
    Ok(Plan::Found { optimum, others })
}

/// The plan that `plan_with` finds, with the optimum by a search that stops at the target, in the same memory.
pub fn plan_in<O: Oracle>(
    alloc: Global,
    memory: &mut PlanMemory,
    star: &Star,
    oracle: &mut O,
    query: &Query,
) -> Result<Plan, NoMemory>
    requires source { IsVertex star.now.vertices query.now.from }
    requires target { IsVertex star.now.vertices query.now.to }
    requires same { HaveSameDist star.now (O.graph oracle.old) }
    ensures answer { IfOk result (IsAnswer star.now query.now) }
    ensures same { O.graph oracle.new ≡ O.graph oracle.old }
    ensures counted { StaysCounted (O.asked oracle.old) (O.asked oracle.new) }
    ensures asks { AsksForPlan star.now query.now (O.asked oracle.old) (O.asked oracle.new) }
{
    let optimum = optimum_in(alloc, &mut memory.trees, star, query.from, query.to)?;
    let plan = plan_with(alloc, memory, star, oracle, query, optimum)?;
    Ok(plan)
}

/// The same in memory of its own, which is laid out for this query alone.
pub fn plan<O: Oracle>(
    alloc: Global,
    star: &Star,
    oracle: &mut O,
    query: &Query,
) -> Result<Plan, NoMemory>
    requires source { IsVertex star.now.vertices query.now.from }
    requires target { IsVertex star.now.vertices query.now.to }
    requires same { HaveSameDist star.now (O.graph oracle.old) }
    ensures answer { IfOk result (IsAnswer star.now query.now) }
    ensures same { O.graph oracle.new ≡ O.graph oracle.old }
    ensures counted { StaysCounted (O.asked oracle.old) (O.asked oracle.new) }
    ensures asks { AsksForPlan star.now query.now (O.asked oracle.old) (O.asked oracle.new) }
{
    let mut memory = PlanMemory::new(alloc);
    let plan = plan_in(alloc, &mut memory, star, oracle, query)?;
    Ok(plan)
}
