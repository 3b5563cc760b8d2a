//! Tests of paths, and ranks.

use crate::graphs::{Test, arc_list, failing_pair, shared_with_optimum};
use forward_star::Star;
use path_tests::within_share;
use road_model::{ArcList, Pair, Ratio, Route, RouteList, Vertex};
use route_ranking::{order_routes, rank};
use std::alloc::Global;
use std::process::Abort;
use std::test::Fail;
use worked_graphs::{A, Arcs, B, STUB, star_of};

// The places of a failing pair, and its distance.
type Failing = Option<(u32, u32, u64)>;

fn pair(failing: Failing) -> Option<Pair> {
    let (first, last, distance) = failing?;
    Some(Pair {
        first,
        last,
        distance,
    })
}

// What a test says of the canonical walk through a vertex, which is there.
fn says<R: Abort>(
    rt: &R,
    alloc: Global,
    star: &Star,
    (from, via, to): (u32, u32, u32),
    test: Test,
    wanted: Option<Pair>,
) -> Result<(), Fail> {
    let found = failing_pair(alloc, star, from, via, to, test)?;
    assert_eq!(rt; found, Some(wanted), "from {from} through {via}");
    Ok(())
}

// A graph of so many vertices; from, through and to; alpha; the optimum's length; the failing pair with its distance.
const LOCAL: &[(u32, Arcs, (u32, u32, u32), (u64, u64), u64, Failing)] = &[
    (6, A, (1, 3, 6), (1, 4), 20, None),
    (6, A, (1, 3, 6), (3, 10), 20, None),
    (6, A, (1, 3, 6), (13, 40), 20, Some((0, 3, 20))),
    (6, B, (1, 3, 6), (1, 4), 20, Some((0, 2, 20))),
    (4, STUB, (1, 4, 3), (0, 1), 2, None),
    (4, STUB, (1, 4, 3), (1, 2), 2, Some((1, 3, 0))),
    (4, STUB, (1, 4, 3), (1, 1), 2, Some((0, 3, 1))),
];

#[test]
fn local_optimality_of_worked_walks(rt: HostRuntime) -> Result<(), Fail> {
    for row in LOCAL {
        let (vertices, arcs, places, (num, den), opt_len, wanted) = *row;
        let star = star_of(rt.alloc(), vertices, arcs)?;
        let alpha = Ratio::new(num, den, 1)?;
        let test = Test::Local { alpha, opt_len };
        says(&rt, rt.alloc(), &star, places, test, pair(wanted))?;
    }
    Ok(())
}

// A graph of so many vertices; from, through and to; epsilon; the failing pair with its distance.
const STRETCHED: &[(u32, Arcs, (u32, u32, u32), (u64, u64), Failing)] = &[
    (6, A, (1, 3, 6), (1, 4), None),
    (6, A, (1, 3, 6), (1, 10), None),
    (6, A, (1, 3, 6), (9, 100), Some((0, 3, 20))),
    (6, B, (1, 3, 6), (0, 1), Some((0, 2, 20))),
    (4, STUB, (1, 4, 3), (1, 1), Some((0, 3, 1))),
    (4, STUB, (1, 4, 3), (4, 1), Some((1, 3, 0))),
];

#[test]
fn stretch_of_worked_walks(rt: HostRuntime) -> Result<(), Fail> {
    for row in STRETCHED {
        let (vertices, arcs, places, (num, den), wanted) = *row;
        let star = star_of(rt.alloc(), vertices, arcs)?;
        let epsilon = Ratio::new(num, den, 4)?;
        let test = Test::Stretch { epsilon };
        says(&rt, rt.alloc(), &star, places, test, pair(wanted))?;
    }
    Ok(())
}

// Of graph A, whose optimum from 1 to 6 is 1 2.
fn shares<R: Abort>(
    rt: &R,
    alloc: Global,
    star: &Star,
    arcs: &[u32],
    wanted: u64,
) -> Result<(), Fail> {
    let list = arc_list(alloc, arcs)?;
    let found = shared_with_optimum(alloc, star, 1, 6, &list)?;
    assert_eq!(rt; found, Some(wanted), "arcs {arcs:?}");
    Ok(())
}

// Each arc of the optimum counts once, however often it occurs.
const SHARED: &[(&[u32], u64)] = &[
    (&[3, 4, 5], 0),
    (&[1, 2], 20),
    (&[1, 6, 4, 5], 10),
    (&[1, 1, 2, 1], 20),
    (&[], 0),
    (&[0, 7], 0),
];

#[test]
fn shared_lengths(rt: HostRuntime) -> Result<(), Fail> {
    let star = star_of(rt.alloc(), 6, A)?;
    for row in SHARED {
        shares(&rt, rt.alloc(), &star, row.0, row.1)?;
    }
    Ok(())
}

fn is_within_share<R: Abort>(
    rt: &R,
    sum: u64,
    (num, den): (u64, u64),
    length: u64,
    wanted: bool,
) -> Result<(), Fail> {
    let gamma = Ratio::new(num, den, 1)?;
    let found = within_share(sum, &gamma, length);
    assert_eq!(rt; found, wanted, "{sum} of {length} by {num}/{den}");
    Ok(())
}

// A shared length, gamma, the optimum's length, and whether it is within. The last rows are the greatest that there are.
const LIMITS: &[(u64, (u64, u64), u64, bool)] = &[
    (16, (4, 5), 20, true),
    (17, (4, 5), 20, false),
    (0, (0, 1), 20, true),
    (1, (0, 1), 20, false),
    (0, (0, 1), 0, true),
    (MOST, (1000000, 1000000), MOST, true),
    (288230087921335591, (999999, 1000000), MOST, true),
    (288230087921335592, (999999, 1000000), MOST, false),
];

const MOST: u64 = 288230376151711743;

#[test]
fn shares_on_the_limit(rt: HostRuntime) -> Result<(), Fail> {
    for row in LIMITS {
        let (sum, gamma, length, wanted) = *row;
        is_within_share(&rt, sum, gamma, length, wanted)?;
    }
    Ok(())
}

#[test]
fn routes_by_rank_and_via(rt: HostRuntime) -> Result<(), Fail> {
    assert_eq!(rt; rank(22, 0, 6), 38);
    assert_eq!(rt; rank(10, 10, 0), 30);
    let mut routes = RouteList::new(rt.alloc());
    for (rank, via) in [(9, 4), (8, 7), (9, 2)] {
        routes.push(Route {
            via: Vertex(via),
            length: 0,
            shared: 0,
            plateau: 0,
            rank,
            arcs: ArcList::new(rt.alloc()),
        })?;
    }
    let ordered = order_routes(routes)?;
    let mut found = Vec::new(rt.alloc());
    for route in ordered.as_slice() {
        found.push((route.rank, route.via.number()))?;
    }
    assert_eq!(rt; found.as_slice(), [(8, 7), (9, 2), (9, 4)].as_slice());
    Ok(())
}
