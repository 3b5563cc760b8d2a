//! The alternatives of a query.

ghost use Rattle.std.specs.Prelude.{◌≡◌, Some, IfOk, All};
ghost use Rattle.road_model.specs.Graph.{IsVertex};
ghost use Rattle.road_model.specs.Dist.{HaveSameDist};
ghost use Rattle.road_model.specs.Answers.{IsListing};
ghost use Rattle.plateau_finder.specs.Plateaus.{ArePlateaus};
ghost use Rattle.via_search.specs.Candidates.{IsPosed, IsBoundOf};
ghost use Rattle.via_search.specs.Settings.{trees_of};
ghost use Rattle.via_search.specs.Judging.{StaysCounted};
ghost use Rattle.via_search.specs.Asks.{AsksFor, AsksAtMost, AsksForPlan};
ghost use Rattle.via_search.specs.Listing.{IsRouteOf};
ghost use Rattle.via_search.specs.Sifting.{IsSifted, ArePut, AsksForAll};

use crate::candidates::candidate_of;
use crate::judging::passes_oracle;
use crate::memory::PlanMemory;
use crate::setting::{Setting, trees_with_steps};
use crate::sifting::{Sifted, sift_all};
use forward_star::Star;
use plateau_finder::{Plateau, plateaus_within};
use road_model::{NoMemory, Optimum, Oracle, Query, Route, RouteList};
use route_ranking::{order_routes, rank};
use std::alloc::Global;

/// The route of a plateau's path, where it passes the tests that ask the oracle.
fn put<O: Oracle>(
    alloc: Global,
    setting: &Setting<'_>,
    oracle: &mut O,
    sifted: &Sifted,
) -> Result<Option<Route>, NoMemory>
    requires same { HaveSameDist setting.now.graph (O.graph oracle.old) }
    requires bound { IsBoundOf setting.now.query setting.now.optimum.length setting.now.reach }
    requires sifted { IsSifted setting.now sifted.now }
    ensures route { IfOk result (IsRouteOf setting.now.graph setting.now.query setting.now.optimum.arcs
        (trees_of setting.now) sifted.now.plateau) }
    ensures same { O.graph oracle.new ≡ O.graph oracle.old }
    ensures counted { StaysCounted (O.asked oracle.old) (O.asked oracle.new) }
    ensures asks { AsksFor setting.now.graph setting.now.query.from setting.now.query.to setting.now.reach
        setting.now.optimum.arcs sifted.now.plateau.least (O.asked oracle.old) (O.asked oracle.new) }
{
    setting.is_posed();
    let plateau = sifted.plateau;
    let shared = sifted.shared;
    let Some(candidate) = candidate_of(alloc, setting, plateau.least)? else {
        unreachable!()
    };
    if !passes_oracle(alloc, setting, oracle, &candidate)? {
        return Ok(None);
    }
    Ok(Some(Route {
        via: plateau.least,
        length: candidate.length,
        shared,
        plateau: plateau.length,
        rank: rank(candidate.length, shared, plateau.length),
        arcs: candidate.arcs,
    }))
}

/// The routes of these plateaus, in their order.
pub(crate) fn put_all<O: Oracle>(
    alloc: Global,
    setting: &Setting<'_>,
    oracle: &mut O,
    sifted: &[Sifted],
) -> Result<RouteList, NoMemory>
    requires same { HaveSameDist setting.now.graph (O.graph oracle.old) }
    requires bound { IsBoundOf setting.now.query setting.now.optimum.length setting.now.reach }
    requires sifted { All (IsSifted setting.now) sifted.now }
    ensures routes { IfOk result (ArePut setting.now sifted.now) }
    ensures same { O.graph oracle.new ≡ O.graph oracle.old }
    ensures counted { StaysCounted (O.asked oracle.old) (O.asked oracle.new) }
    ensures asks { AsksForAll setting.now sifted.now (O.asked oracle.old) (O.asked oracle.new) }
{
    let mut routes = RouteList::new(alloc);
    for one in sifted {
        if let Some(route) = put(alloc, setting, oracle, one)? {
            routes.push(route)?;
        }
    }
    Ok(routes)
}

/// The alternatives among the paths of these plateaus.
fn routes_of<O: Oracle>(
    alloc: Global,
    memory: &mut PlanMemory,
    setting: &Setting<'_>,
    oracle: &mut O,
    plateaus: &[Plateau],
) -> Result<RouteList, NoMemory>
    requires same { HaveSameDist setting.now.graph (O.graph oracle.old) }
    requires bound { IsBoundOf setting.now.query setting.now.optimum.length setting.now.reach }
    requires plateaus { ArePlateaus (trees_of setting.now) (Some setting.now.reach) plateaus.now }
    ensures listing { IfOk result (IsListing setting.now.graph setting.now.query setting.now.optimum.arcs) }
    ensures same { O.graph oracle.new ≡ O.graph oracle.old }
    ensures counted { StaysCounted (O.asked oracle.old) (O.asked oracle.new) }
    ensures asks { AsksAtMost setting.now.graph setting.now.query.from setting.now.query.to setting.now.reach
        setting.now.optimum.arcs (O.asked oracle.old) (O.asked oracle.new) }
{
    setting.is_posed();
    let sifted = sift_all(alloc, memory, setting, plateaus)?;
    let routes = put_all(alloc, setting, oracle, sifted.as_slice())?;
    let routes = order_routes(routes)?;
    Ok(routes)
}

/// All alternatives, in order. The trees are made in the memory, which is given back.
pub(crate) fn alternatives<O: Oracle>(
    alloc: Global,
    memory: &mut PlanMemory,
    star: &Star,
    oracle: &mut O,
    query: &Query,
    optimum: &Optimum,
) -> Result<RouteList, NoMemory>
    requires posed { IsPosed star.now query.now optimum.now }
    requires target { IsVertex star.now.vertices query.now.to }
    requires same { HaveSameDist star.now (O.graph oracle.old) }
    ensures listing { IfOk result (IsListing star.now query.now optimum.now.arcs) }
    ensures same { O.graph oracle.new ≡ O.graph oracle.old }
    ensures counted { StaysCounted (O.asked oracle.old) (O.asked oracle.new) }
    ensures asks { AsksForPlan star.now query.now (O.asked oracle.old) (O.asked oracle.new) }
{
    let bound = query.epsilon.bound(optimum.length);
    let pair = trees_with_steps(alloc, &mut memory.trees, star, query, bound)?;
    let plateaus = plateaus_within(alloc, &pair, bound)?;
    let setting = Setting::of(star, &pair, query, optimum, bound);
    let routes = routes_of(alloc, memory, &setting, oracle, plateaus.as_slice())?;
    memory.trees = pair.into_memory();
    Ok(routes)
}
