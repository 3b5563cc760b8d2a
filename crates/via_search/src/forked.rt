//! Plans whose paths are tested in pieces, on several threads.

ghost use Rattle.std.specs.Prelude.{◌≡◌, ◌<◌, ◌≤◌, ◌^◌, ◌++◌, Some, IfOk, IfSome, length, map};
ghost use Rattle.std.specs.List.{sum_by};
ghost use Rattle.std.specs.Thread.{IsSend, IsSync};
ghost use Rattle.road_model.specs.Graph.{IsVertex};
ghost use Rattle.road_model.specs.Canonical.{IsOptimum};
ghost use Rattle.road_model.specs.Answers.{IsAnswer, IsListing};
ghost use Rattle.plateau_finder.specs.Plateaus.{ArePlateaus};
ghost use Rattle.via_search.specs.Candidates.{IsPosed, IsBoundOf};
ghost use Rattle.via_search.specs.Settings.{trees_of};
ghost use Rattle.via_search.specs.Asks.{AsksAtMost, AsksForPlan};
ghost use Rattle.via_search.specs.Sifting.{ArePut};
ghost use Rattle.via_search.specs.Forking.{CanTest, HaveTested, HaveAllSameDist, StayCounted};

use crate::memory::PlanMemory;
use crate::routes::put_all;
use crate::setting::{Setting, trees_with_steps_forked};
use crate::sifting::{Sifted, sift_all};
use canonical_trees::optimum_in;
use forward_star::Star;
use plateau_finder::{Plateau, plateaus_forked};
use road_model::{Gate, Items, NoMemory, Optimum, Oracle, Plan, Query, RouteList};
use route_ranking::order_routes;
use std::alloc::Global;
use std::marker::{Send, Sync};
use std::thread::{Threads, join_mut};

/// The number of the first piece at the gate, after the two searches.
const FIRST_PIECE: u32 = 2;

/// How many of `total` things the first `low` of `count` parts have. The parts are as equal as can be.
fn first_share(total: usize, low: usize, count: usize) -> usize
    requires some { 0 < count }
    requires part { low ≤ count }
    ensures { result ≤ total }
{
    let each = total / count;
    let over = total % count;
    each * low + over.min(low)
}

/// The routes of these plateaus, in their order: a piece of them for each oracle, in a thread of its own where one can
/// be made. The allocator is lent, since the closures of the halves share it.
#[cycle(pieces)]
fn put_pieces<R: Threads + Sync, O: Oracle + Send, G: Gate>(
    rt: &R,
    alloc: &Global,
    gate: &G,
    setting: &Setting<'_>,
    part: u32,
    sifted: &[Sifted],
    oracles: &mut [O],
) -> Result<RouteList, NoMemory>
    requires { CanTest (λ o. O.graph o) setting.now sifted.now part oracles.old }
    ensures routes { IfOk result (ArePut setting.now sifted.now) }
    ensures tested { HaveTested (λ o. O.graph o) (λ o. O.asked o) setting.now sifted.now oracles.old oracles.new }
{
    let count = oracles.len();
    if count == 1 {
        gate.enter(part);
        return put_all(*alloc, setting, &mut oracles[0], sifted);
    }
    let low = count / 2;
    let cut = first_share(sifted.len(), low, count);
    let (near, far) = sifted.split_at(cut);
    let next = part + low as u32;
    let (left, right) = oracles.split_at_mut(low);
    put_halves(rt, alloc, gate, setting, part, near, left, next, far, right)
}

#[cycle(pieces)]
fn put_halves<R: Threads + Sync, O: Oracle + Send, G: Gate>(
    rt: &R,
    alloc: &Global,
    gate: &G,
    setting: &Setting<'_>,
    part: u32,
    near: &[Sifted],
    left: &mut [O],
    next: u32,
    far: &[Sifted],
    right: &mut [O],
) -> Result<RouteList, NoMemory>
    requires left { CanTest (λ o. O.graph o) setting.now near.now part left.old }
    requires right { CanTest (λ o. O.graph o) setting.now far.now next right.old }
    ensures routes { IfOk result (ArePut setting.now (near.now ++ far.now)) }
    ensures left { HaveTested (λ o. O.graph o) (λ o. O.asked o) setting.now near.now left.old left.new }
    ensures right { HaveTested (λ o. O.graph o) (λ o. O.asked o) setting.now far.now right.old right.new }
{
    let mut front = || -> Result<RouteList, NoMemory>
        requires { IsSync R.row × IsSync G.row × IsSend O.row × CanTest (λ o. O.graph o) setting.now near.now part left.now }
        ensures { IfOk result (ArePut setting.entry.now near.entry.now)
            × HaveTested (λ o. O.graph o) (λ o. O.asked o) setting.entry.now near.entry.now left.entry.now left.exit.now }
    { put_pieces(rt, alloc, gate, setting, part, near, left) };
    let mut back = || -> Result<RouteList, NoMemory>
        requires { IsSync R.row × IsSync G.row × IsSend O.row × CanTest (λ o. O.graph o) setting.now far.now next right.now }
        ensures { IfOk result (ArePut setting.entry.now far.entry.now)
            × HaveTested (λ o. O.graph o) (λ o. O.asked o) setting.entry.now far.entry.now right.entry.now right.exit.now }
    { put_pieces(rt, alloc, gate, setting, next, far, right) };
    let (first, second) = join_mut(rt, &mut front, &mut back);
    joined(first?, second?)
}

/// The routes of both lists, one after the other.
fn joined(first: RouteList, second: RouteList) -> Result<RouteList, NoMemory>
    ensures { IfOk result (λ routes. routes ≡ first ++ second) }
{
    let mut routes = first.into_vec();
    let mut rest = second.into_vec();
    routes.append(&mut rest)?;
    Ok(Items::from_vec(routes))
}

/// The alternatives among the paths of these plateaus.
fn forked_routes<R: Threads + Sync, O: Oracle + Send, G: Gate>(
    rt: &R,
    alloc: Global,
    gate: &G,
    memory: &mut PlanMemory,
    setting: &Setting<'_>,
    plateaus: &[Plateau],
    oracles: &mut [O],
) -> Result<RouteList, NoMemory>
    requires some { 0 < length oracles.old }
    requires few { length oracles.old < 4294967295 }
    requires same { HaveAllSameDist (λ o. O.graph o) setting.now.graph oracles.old }
    requires bound { IsBoundOf setting.now.query setting.now.optimum.length setting.now.reach }
    requires plateaus { ArePlateaus (trees_of setting.now) (Some setting.now.reach) plateaus.now }
    ensures listing { IfOk result (IsListing setting.now.graph setting.now.query setting.now.optimum.arcs) }
    ensures same { map (λ o. O.graph o) oracles.new ≡ map (λ o. O.graph o) oracles.old }
    ensures counted { StayCounted (λ o. O.asked o) oracles.old oracles.new }
    ensures asks { AsksAtMost setting.now.graph setting.now.query.from setting.now.query.to setting.now.reach
        setting.now.optimum.arcs (sum_by (λ o. O.asked o) oracles.old) (sum_by (λ o. O.asked o) oracles.new) }
{
    setting.is_posed();
    let sifted = sift_all(alloc, memory, setting, plateaus)?;
    let routes = put_pieces(
        rt,
        &alloc,
        gate,
        setting,
        FIRST_PIECE,
        sifted.as_slice(),
        oracles,
    )?;
    let routes = order_routes(routes)?;
    Ok(routes)
}

/// All alternatives, in order. The trees are made in the memory, which is given back.
fn forked_alternatives<R: Threads + Sync, O: Oracle + Send, G: Gate>(
    rt: &R,
    alloc: Global,
    gate: &G,
    memory: &mut PlanMemory,
    star: &Star,
    oracles: &mut [O],
    query: &Query,
    optimum: &Optimum,
) -> Result<RouteList, NoMemory>
    requires posed { IsPosed star.now query.now optimum.now }
    requires target { IsVertex star.now.vertices query.now.to }
    requires some { 0 < length oracles.old }
    requires few { length oracles.old < 4294967295 }
    requires same { HaveAllSameDist (λ o. O.graph o) star.now oracles.old }
    ensures listing { IfOk result (IsListing star.now query.now optimum.now.arcs) }
    ensures same { map (λ o. O.graph o) oracles.new ≡ map (λ o. O.graph o) oracles.old }
    ensures counted { StayCounted (λ o. O.asked o) oracles.old oracles.new }
    ensures asks { AsksForPlan star.now query.now (sum_by (λ o. O.asked o) oracles.old)
        (sum_by (λ o. O.asked o) oracles.new) }
{
    let bound = query.epsilon.bound(optimum.length);
    let pair = trees_with_steps_forked(rt, alloc, gate, &mut memory.trees, star, query, bound)?;
    let plateaus = plateaus_forked(rt, alloc, &pair, bound)?;
    let setting = Setting::of(star, &pair, query, optimum, bound);
    let routes = forked_routes(
        rt,
        alloc,
        gate,
        memory,
        &setting,
        plateaus.as_slice(),
        oracles,
    )?;
    memory.trees = pair.into_memory();
    Ok(routes)
}

/// The plan that `plan_with` finds, with the paths tested in as many pieces as there are oracles, each in a thread of its
/// own where one can be made.
///
/// The two searches go before, at once, and then all that needs no oracle. The pieces are as equal in number of paths as
/// can be; piece `k`, from 0, has oracle `k`. The two searches pass the gate as parts 0 and 1, and piece `k` as part
/// `k + 2`. All oracles together are asked no more than `plan_with` asks its one. An `Err` leaves the oracles as good as
/// before, and at worst an empty memory.
///
/// A thread costs some ten microseconds, so for a near query `plan_with` is faster.
pub fn plan_forked_with<R: Threads + Sync, O: Oracle + Send, G: Gate>(
    rt: &R,
    alloc: Global,
    gate: &G,
    memory: &mut PlanMemory,
    star: &Star,
    oracles: &mut [O],
    query: &Query,
    optimum: Option<Optimum>,
) -> Result<Plan, NoMemory>
    requires source { IsVertex star.now.vertices query.now.from }
    requires target { IsVertex star.now.vertices query.now.to }
    requires some { 0 < length oracles.old }
    requires few { length oracles.old < 4294967295 }
    requires same { HaveAllSameDist (λ o. O.graph o) star.now oracles.old }
    requires optimum { IsOptimum star.now query.now.from query.now.to optimum }
    requires short { IfSome optimum (λ o. o.length < 2 ^ 57) }
    ensures answer { IfOk result (IsAnswer star.now query.now) }
    ensures same { map (λ o. O.graph o) oracles.new ≡ map (λ o. O.graph o) oracles.old }
    ensures counted { StayCounted (λ o. O.asked o) oracles.old oracles.new }
    ensures asks { AsksForPlan star.now query.now (sum_by (λ o. O.asked o) oracles.old)
        (sum_by (λ o. O.asked o) oracles.new) }
{
    star.within_limits();
    let Some(optimum) = optimum else {
        return Ok(Plan::NoPath);
    };
    let others = forked_alternatives(rt, alloc, gate, memory, star, oracles, query, &optimum)?;
    Ok(Plan::Found { optimum, others })
}

/// The same in memory of its own, with the optimum by a search that stops at the target.
pub fn plan_forked<R: Threads + Sync, O: Oracle + Send, G: Gate>(
    rt: &R,
    alloc: Global,
    gate: &G,
    star: &Star,
    oracles: &mut [O],
    query: &Query,
) -> Result<Plan, NoMemory>
    requires source { IsVertex star.now.vertices query.now.from }
    requires target { IsVertex star.now.vertices query.now.to }
    requires some { 0 < length oracles.old }
    requires few { length oracles.old < 4294967295 }
    requires same { HaveAllSameDist (λ o. O.graph o) star.now oracles.old }
    ensures answer { IfOk result (IsAnswer star.now query.now) }
    ensures same { map (λ o. O.graph o) oracles.new ≡ map (λ o. O.graph o) oracles.old }
    ensures counted { StayCounted (λ o. O.asked o) oracles.old oracles.new }
    ensures asks { AsksForPlan star.now query.now (sum_by (λ o. O.asked o) oracles.old)
        (sum_by (λ o. O.asked o) oracles.new) }
{
    let mut memory = PlanMemory::new(alloc);
    let optimum = optimum_in(alloc, &mut memory.trees, star, query.from, query.to)?;
    let plan = plan_forked_with(rt, alloc, gate, &mut memory, star, oracles, query, optimum)?;
    Ok(plan)
}
