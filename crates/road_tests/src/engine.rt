use forward_star::Star;
use grid_maker::make;
use road_model::{GraphFile, Oracle, Plan, Planner, Query, Vertex};
use route_engine::Prepared;
use std::alloc::Global;
use std::test::Fail;
use std::thread::Threads;
use tree_search::PlainOracle;
use via_search::plan;

/// A grid of 3,600 vertices, which is large enough for a hierarchy to pay off.
fn grid(alloc: Global) -> Result<GraphFile, Fail> {
    match make(alloc, 7, 60, 60) {
        Ok((graph, _words)) => Ok(graph),
        Err(_) => Err("no grid".into()),
    }
}

/// How many routes a plan has, and how many vertices its plain searches settled.
fn by_plain_searches(alloc: Global, star: &Star, query: &Query) -> Result<(usize, u64), Fail> {
    let vertices = star.vertices();
    if query.from.number() < 1 || query.from.number() > vertices {
        return Err("no such source".into());
    }
    if query.to.number() < 1 || query.to.number() > vertices {
        return Err("no such target".into());
    }
    star.within_limits();
    let mut oracle = PlainOracle::new(alloc, star)?;
    match plan(alloc, star, &mut oracle, query)? {
        Plan::Found { others, .. } => Ok((others.len(), oracle.settled())),
        Plan::NoPath => Err("no path".into()),
    }
}

/// The same by a version, which asks its hierarchy.
fn by_a_version(
    rt: &(impl Threads + Sync),
    alloc: Global,
    query: &Query,
) -> Result<(usize, u64), Fail> {
    let version = Prepared::from_file(rt, alloc, grid(alloc)?)?;
    let vertices = version.vertices();
    if query.from.number() < 1 || query.from.number() > vertices {
        return Err("no such source".into());
    }
    if query.to.number() < 1 || query.to.number() > vertices {
        return Err("no such target".into());
    }
    let mut work = Prepared::work(alloc);
    match version.plan_counted(rt, alloc, query, &mut work)? {
        Plan::Found { others, .. } => Ok((others.len(), work.settled())),
        Plan::NoPath => Err("no path".into()),
    }
}

#[test]
fn a_version_settles_less_than_plain_searches(rt: HostRuntime) -> Result<(), Fail> {
    let alloc = rt.alloc();
    let query = Query::usual(Vertex(1), Vertex(3600));
    let star = Star::build(alloc, grid(alloc)?)?;
    let (plain_routes, plain_settled) = by_plain_searches(alloc, &star, &query)?;
    let (routes, settled) = by_a_version(&rt, alloc, &query)?;
    assert_eq!(rt; routes, plain_routes);
    assert!(rt; settled > 0);
    assert!(rt; settled < plain_settled);
    Ok(())
}
