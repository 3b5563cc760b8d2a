//! Plans and verdicts.

ghost use Rattle.std.specs.Prelude.{IfOk};
ghost use Rattle.road_model.specs.Graph.{IsVertex};
ghost use Rattle.road_model.specs.Dist.{HaveSameDist};

use forward_star::Star;
use road_model::{ArcList, NoMemory, Oracle, Pair, Plan, Query, Ratio, Verdict, Vertex};
use std::alloc::{AllocError, Global};
use std::fmt::Write;
use std::process::Abort;
use std::test::Fail;
use tree_search::PlainOracle;
use via_search::{PlanMemory, plan, plan_in, verdict};
use worked_graphs::{A, Arcs, B, C, D, PARALLEL, STUB, star_of, vertex_of};

/// Gamma, alpha and epsilon.
pub type Ratios = [(u64, u64); 3];

pub const DEFAULT: Ratios = [(4, 5), (1, 4), (1, 4)];

/// What several tests list.
pub const OVER_A: &str =
    "optimum length 20 arcs 1 2; via 3 length 22 shared 0 plateau 6 rank 38 arcs 3 4 5";

const ALONE: &str = "optimum length 20 arcs 1 2";

const OVER_C: &str =
    "optimum length 20 arcs 1 2 3; via 4 length 21 shared 5 plateau 5 rank 42 arcs 1 4 5 6";

const OVER_D: &str =
    "optimum length 10 arcs 3 2; via 1 length 10 shared 0 plateau 5 rank 15 arcs 1 4";

fn ratio_of(ratio: (u64, u64), cap: u64) -> Result<Ratio, Fail> {
    if cap > 4 {
        return Err("too large a cap".into());
    }
    Ok(Ratio::new(ratio.0, ratio.1, cap)?)
}

// A query of the star, from one vertex to another.
pub fn query_of(star: &Star, ends: (u32, u32), ratios: Ratios) -> Result<Query, Fail>
    ensures { IfOk result
        (λ q. IsVertex star.now.vertices q.from × IsVertex star.now.vertices q.to) }
{
    let vertices = star.vertices();
    Ok(Query {
        from: vertex_of(vertices, ends.0)?,
        to: vertex_of(vertices, ends.1)?,
        gamma: ratio_of(ratios[0], 1)?,
        alpha: ratio_of(ratios[1], 1)?,
        epsilon: ratio_of(ratios[2], 4)?,
    })
}

// The plan of a query; none where it found no memory.
fn plan_over<O: Oracle>(
    alloc: Global,
    star: &Star,
    oracle: &mut O,
    ends: (u32, u32),
    ratios: Ratios,
) -> Result<Option<Plan>, Fail>
    requires { HaveSameDist star.now (O.graph oracle.old) }
{
    let query = query_of(star, ends, ratios)?;
    Ok(plan(alloc, star, oracle, &query).ok())
}

fn plan_of(alloc: Global, star: &Star, ends: (u32, u32), ratios: Ratios) -> Result<Plan, Fail> {
    star.within_limits();
    let mut oracle = PlainOracle::new(alloc, star)?;
    let made = plan_over(alloc, star, &mut oracle, ends, ratios)?;
    Ok(made.ok_or("no memory")?)
}

fn write_arcs(text: &mut String, arcs: &ArcList) -> Result<(), Fail> {
    text.push_str(" arcs")?;
    for arc in arcs.as_slice() {
        let number = arc.number();
        write!(text, " {number}")?;
    }
    Ok(())
}

pub fn text_of(alloc: Global, plan: &Plan) -> Result<String, Fail> {
    let mut text = String::new(alloc);
    let Plan::Found { optimum, others } = plan else {
        text.push_str("none")?;
        return Ok(text);
    };
    let length = optimum.length;
    write!(text, "optimum length {length}")?;
    write_arcs(&mut text, &optimum.arcs)?;
    for route in others.as_slice() {
        let via = route.via.number();
        let (length, shared) = (route.length, route.shared);
        let (plateau, rank) = (route.plateau, route.rank);
        write!(
            text,
            "; via {via} length {length} shared {shared} plateau {plateau} rank {rank}"
        )?;
        write_arcs(&mut text, &route.arcs)?;
    }
    Ok(text)
}

fn lists<R: Abort>(
    rt: &R,
    alloc: Global,
    star: &Star,
    ends: (u32, u32),
    ratios: Ratios,
    wanted: &str,
) -> Result<(), Fail> {
    let made = plan_of(alloc, star, ends, ratios)?;
    let text = text_of(alloc, &made)?;
    assert_eq!(rt; text.as_str(), wanted, "{ends:?} by {ratios:?}");
    Ok(())
}

// A graph of so many vertices, the ends of a query, its ratios, and its plan.
const PLANS: &[(u32, Arcs, (u32, u32), Ratios, &str)] = &[
    (6, A, (1, 6), DEFAULT, OVER_A),
    (6, B, (1, 6), DEFAULT, ALONE),
    (6, A, (1, 6), [(4, 5), (3, 10), (1, 4)], OVER_A),
    (6, A, (1, 6), [(4, 5), (13, 40), (1, 4)], ALONE),
    (6, A, (1, 6), [(4, 5), (1, 4), (1, 10)], OVER_A),
    (6, A, (1, 6), [(4, 5), (1, 4), (9, 100)], ALONE),
    (4, D, (1, 4), DEFAULT, OVER_D),
    (6, A, (1, 1), DEFAULT, "optimum length 0 arcs"),
    (6, A, (6, 1), DEFAULT, "none"),
    (6, C, (1, 6), DEFAULT, OVER_C),
    (
        6,
        C,
        (1, 6),
        [(1, 10), (1, 4), (1, 4)],
        "optimum length 20 arcs 1 2 3",
    ),
    (
        4,
        STUB,
        (1, 3),
        [(1, 1), (0, 1), (1, 1)],
        "optimum length 2 arcs 1 2",
    ),
    (2, PARALLEL, (1, 2), DEFAULT, "optimum length 7 arcs 1"),
];

#[test]
fn lists_the_optimum_and_each_alternative(rt: HostRuntime) -> Result<(), Fail> {
    for row in PLANS {
        let (vertices, arcs, ends, ratios, wanted) = *row;
        let star = star_of(rt.alloc(), vertices, arcs)?;
        lists(&rt, rt.alloc(), &star, ends, ratios, wanted)?;
    }
    Ok(())
}

fn plan_kept(
    alloc: Global,
    memory: &mut PlanMemory,
    star: &Star,
    ends: (u32, u32),
) -> Result<Plan, Fail> {
    star.within_limits();
    let mut oracle = PlainOracle::new(alloc, star)?;
    let query = query_of(star, ends, DEFAULT)?;
    let plan = plan_in(alloc, memory, star, &mut oracle, &query)?;
    Ok(plan)
}

fn lists_kept<R: Abort>(
    rt: &R,
    alloc: Global,
    memory: &mut PlanMemory,
    star: &Star,
    wanted: &str,
) -> Result<(), Fail> {
    let made = plan_kept(alloc, memory, star, (1, star.vertices()))?;
    let text = text_of(alloc, &made)?;
    assert_eq!(rt; text.as_str(), wanted);
    Ok(())
}

#[test]
fn plans_one_query_after_another(rt: HostRuntime) -> Result<(), Fail> {
    let a = rt.alloc();
    let mut memory = PlanMemory::new(a);
    lists_kept(&rt, a, &mut memory, &star_of(a, 4, D)?, OVER_D)?;
    lists_kept(&rt, a, &mut memory, &star_of(a, 6, A)?, OVER_A)?;
    lists_kept(&rt, a, &mut memory, &star_of(a, 6, C)?, OVER_C)?;
    lists_kept(&rt, a, &mut memory, &star_of(a, 6, A)?, OVER_A)
}

fn write_pair(text: &mut String, pair: &Pair) -> Result<(), Fail> {
    let (first, last, distance) = (pair.first, pair.last, pair.distance);
    write!(text, "{first} {last} {distance}")?;
    Ok(())
}

// A verdict as a text: its name and its numbers.
fn write_verdict(text: &mut String, verdict: &Verdict) -> Result<(), Fail> {
    match verdict {
        Verdict::Unreached => text.push_str("unreached")?,
        Verdict::Optimum => text.push_str("optimum")?,
        Verdict::Long(length) => write!(text, "long {length}")?,
        Verdict::Shared(sum) => write!(text, "shared {sum}")?,
        Verdict::Local(pair) => {
            text.push_str("local ")?;
            write_pair(text, pair)?;
        }
        Verdict::Stretch(pair) => {
            text.push_str("stretch ")?;
            write_pair(text, pair)?;
        }
        Verdict::Listed(name) => {
            let number = name.number();
            write!(text, "listed {number}")?;
        }
    }
    Ok(())
}

// The verdict on a vertex; none where it found no memory.
fn verdict_over<O: Oracle>(
    alloc: Global,
    star: &Star,
    oracle: &mut O,
    ends: (u32, u32),
    via: u32,
    ratios: Ratios,
) -> Result<Option<Option<Verdict>>, Fail>
    requires { HaveSameDist star.now (O.graph oracle.old) }
{
    let vertices = star.vertices();
    let via = vertex_of(vertices, via)?;
    let query = query_of(star, ends, ratios)?;
    Ok(verdict(alloc, star, oracle, &query, via).ok())
}

fn verdict_of(
    alloc: Global,
    star: &Star,
    ends: (u32, u32),
    via: u32,
    ratios: Ratios,
) -> Result<String, Fail> {
    star.within_limits();
    let mut oracle = PlainOracle::new(alloc, star)?;
    let found = verdict_over(alloc, star, &mut oracle, ends, via, ratios)?;
    let mut text = String::new(alloc);
    match &found.ok_or("no memory")? {
        Some(verdict) => write_verdict(&mut text, verdict)?,
        None => text.push_str("none")?,
    }
    Ok(text)
}

fn says<R: Abort>(
    rt: &R,
    alloc: Global,
    star: &Star,
    ends: (u32, u32),
    via: u32,
    ratios: Ratios,
    wanted: &str,
) -> Result<(), Fail> {
    let found = verdict_of(alloc, star, ends, via, ratios)?;
    assert_eq!(rt; found.as_str(), wanted, "{ends:?} through {via}");
    Ok(())
}

// A graph of so many vertices, the ends of a query, a vertex, the ratios, and the verdict.
const VERDICTS: &[(u32, Arcs, (u32, u32), u32, Ratios, &str)] = &[
    (6, A, (1, 6), 4, DEFAULT, "listed 3"),
    (6, A, (1, 6), 5, DEFAULT, "unreached"),
    (6, A, (1, 6), 2, DEFAULT, "optimum"),
    (6, A, (6, 1), 4, DEFAULT, "none"),
    (6, A, (1, 6), 3, [(4, 5), (13, 40), (1, 4)], "local 0 3 20"),
    (6, A, (1, 6), 3, [(4, 5), (1, 4), (9, 100)], "long 22"),
    (
        4,
        STUB,
        (1, 3),
        4,
        [(1, 1), (0, 1), (1, 1)],
        "stretch 0 3 1",
    ),
    (6, C, (1, 6), 4, [(1, 10), (1, 4), (1, 4)], "shared 5"),
];

#[test]
fn says_why_a_path_is_or_is_not_listed(rt: HostRuntime) -> Result<(), Fail> {
    for row in VERDICTS {
        let (vertices, arcs, ends, via, ratios, wanted) = *row;
        let star = star_of(rt.alloc(), vertices, arcs)?;
        says(&rt, rt.alloc(), &star, ends, via, ratios, wanted)?;
    }
    Ok(())
}

/// An oracle that has no memory for an answer.
#[derive(Drop)]
struct Refuses<'a> {
    star: &'a Star,
}

impl Oracle for Refuses<'_> {
    ghost graph = { λ o. o.star.now };

    ghost asked = { λ _. 0 };

    fn distance(&mut self, _from: Vertex, _to: Vertex) -> Result<Option<u64>, NoMemory> {
        Err(AllocError)
    }

    fn settled(&self) -> u64 {
        0
    }
}

#[test]
fn asks_its_oracle(rt: HostRuntime) -> Result<(), Fail> {
    let star = star_of(rt.alloc(), 6, C)?;
    let mut oracle = Refuses { star: &star };
    let made = plan_over(rt.alloc(), &star, &mut oracle, (1, 6), DEFAULT)?;
    assert!(rt; made.is_none());
    let mut oracle = Refuses { star: &star };
    let found = verdict_over(rt.alloc(), &star, &mut oracle, (1, 6), 4, DEFAULT)?;
    assert!(rt; found.is_none());
    Ok(())
}
