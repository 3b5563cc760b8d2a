//! Queries that a generator draws, answered one after another.

ghost use Rattle.std.specs.Prelude.{◌≡◌, ◌<◌, ◌≤◌, ◌^◌, IfOk};
ghost use Rattle.std.specs.List.{sum_by};
ghost use Rattle.road_model.specs.Graph.{IsVertex};
ghost use Rattle.route_engine.specs.Lineage.{graph_of};
ghost use Rattle.grid_survey.specs.Summary.{IsSummary, drawn, draws, step};

use crate::Summary;
use rand_core::utils::NextWord;
use rand_xoshiro::SplitMix64;
use road_model::{NoMemory, Planner, Query, Route, Vertex};
use route_engine::Prepared;
use std::alloc::Global;
use std::thread::Threads;

// The vertex of the next word.
fn drawn(words: &mut SplitMix64, vertices: u32) -> Vertex
    requires { 1 ≤ vertices }
    ensures value { result ≡ drawn vertices words.old }
    ensures inside { IsVertex vertices result }
    ensures beyond { words.new ≡ step words.old }
{
    Vertex(1 + (words.next_word() % u64::from(vertices)) as u32)
}

/// The sum of the lengths of alternatives.
pub fn sum_of_lengths(routes: &[Route]) -> u128
    requires { sum_by (λ r. r.length) routes.now < 2 ^ 128 }
    ensures { result ≡ sum_by (λ r. r.length) routes.now }
{
    routes.iter().map(|route| u128::from(route.length)).sum()
}

/// The summary of so many queries over a version of a graph, each between the vertices of the next two words.
pub fn answer_all<R: Threads + Sync>(
    rt: &R,
    alloc: Global,
    version: &Prepared,
    words: &mut SplitMix64,
    queries: u32,
) -> Result<Summary, NoMemory>
    requires few { queries ≤ 10000 }
    requires some { 1 ≤ (graph_of version.now).vertices }
    ensures { IfOk result
        (IsSummary (graph_of version.now) (draws words.old (graph_of version.now).vertices queries)) }
{
    let star = version.star();
    let vertices = star.vertices();
    let mut summary = Summary {
        vertices,
        arcs: star.arc_count(),
        queries,
        without_path: 0,
        routes: 0,
        length: 0,
    };
    let mut work = Prepared::work(alloc);
    for _query in 0..queries {
        let from = drawn(words, vertices);
        let to = drawn(words, vertices);
        let answer = version.plan(rt, alloc, &mut work, &Query::usual(from, to))?;
        summary.count(&answer);
    }
    Ok(summary)
}
