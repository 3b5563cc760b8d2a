//! The summary of queries over a generated grid.
#![tactic(auto)]

mod printing;
mod queries;

ghost use Rattle.std.specs.Prelude.{◌≡◌, ◌↔◌, ◌≤◌, IfOk, IsErrOf};
ghost use Rattle.grid_maker.specs.declared.MakeFault.TheVariants as fault;
ghost use Rattle.grid_maker.specs.Grid.{IsSide};
ghost use Rattle.grid_survey.specs.Counting.{Counts, HasRoom};
ghost use Rattle.grid_survey.specs.Summary.{IsSurvey};

use crate::queries::{answer_all, sum_of_lengths};
use grid_maker::{MakeFault, make};
pub use printing::put_summary;
use road_model::Plan;
use route_engine::Prepared;
use std::alloc::Global;
use std::thread::Threads;

/// What a survey counts. Lengths are in the graph's whole units.
#[derive(Clone, Copy, Debug, PartialEq, Eq)]
pub struct Summary {
    pub vertices: u32,
    pub arcs: u32,
    pub queries: u32,
    /// How many of the queries have no path.
    pub without_path: u32,
    /// How many paths the answers have, the optima among them.
    pub routes: u64,
    /// The sum of their lengths.
    pub length: u128,
}

impl Summary {
    // Counts one more answer.
    fn count(&mut self, plan: &Plan)
        requires { HasRoom self.old plan.now }
        ensures { Counts self.old self.new plan.now }
    {
        match plan {
            Plan::NoPath => self.without_path += 1,
            Plan::Found { optimum, others } => {
                self.routes += 1 + others.len() as u64;
                self.length += u128::from(optimum.length) + sum_of_lengths(others.as_slice());
            }
        }
    }
}

/// Makes the grid of a seed, draws a number of queries from the generator after its lengths, answers them one after
/// another, and counts what the answers hold. The same numbers give the same summary everywhere.
///
/// A query leads from the vertex of one word to that of the next, with the usual ratios. A survey takes the time to make
/// the hierarchy of the grid, and that of its answers. It takes the memory of a `Prepared`, that of its `Work`, and that
/// of one answer at a time.
pub fn survey<R: Threads + Sync>(
    rt: &R,
    alloc: Global,
    seed: u64,
    width: u32,
    height: u32,
    queries: u32,
) -> Result<Summary, MakeFault>
    requires { queries ≤ 10000 }
    ensures size { IsErrOf result fault.Size ↔ (IsSide width × IsSide height → ⊥) }
    ensures summary { IfOk result (IsSurvey seed width height queries) }
{
    let (graph, mut words) = make(alloc, seed, width, height)?;
    let version = Prepared::from_file(rt, alloc, graph)?;
    let summary = answer_all(rt, alloc, &version, &mut words, queries)?;
    Ok(summary)
}

#[cfg(test)]
mod tests;
