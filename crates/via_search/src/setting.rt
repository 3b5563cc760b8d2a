//! What the paths of a query are judged by.

ghost use Rattle.std.specs.Prelude.{◌≡◌, IfOk};
ghost use Rattle.road_model.specs.Graph.{IsVertex};
ghost use Rattle.via_search.specs.Candidates.{IsPosed, pair_of};

use canonical_trees::{TreeMemory, TreePair, trees_forked_in, trees_in};
use forward_star::Star;
use road_model::{Gate, NoMemory, Optimum, Query};
use std::alloc::Global;
use std::marker::Model;
use std::thread::Threads;

/// The trees of a query as far as `reach`, which keep the steps of all vertices whose paths are no longer than that:
/// whoever asks of many paths would else look the step of a vertex up once for each path through it.
pub(crate) fn trees_with_steps<'a>(
    alloc: Global,
    memory: &mut TreeMemory,
    star: &'a Star,
    query: &Query,
    reach: u64,
) -> Result<TreePair<'a>, NoMemory>
    requires source { IsVertex star.now.vertices query.now.from }
    requires target { IsVertex star.now.vertices query.now.to }
    ensures { IfOk result (λ pair. pair ≡ pair_of star.now query.now reach) }
{
    let mut pair = trees_in(alloc, memory, star, query.from, query.to, Some(reach))?;
    pair.keep_steps(reach)?;
    Ok(pair)
}

/// The same by two threads: the searches are parts 0 and 1 of the gate.
pub(crate) fn trees_with_steps_forked<'a, R: Threads + Sync, G: Gate>(
    rt: &R,
    alloc: Global,
    gate: &G,
    memory: &mut TreeMemory,
    star: &'a Star,
    query: &Query,
    reach: u64,
) -> Result<TreePair<'a>, NoMemory>
    requires source { IsVertex star.now.vertices query.now.from }
    requires target { IsVertex star.now.vertices query.now.to }
    ensures { IfOk result (λ pair. pair ≡ pair_of star.now query.now reach) }
{
    let (from, to) = (query.from, query.to);
    let mut pair = trees_forked_in(rt, alloc, gate, memory, star, from, to, Some(reach))?;
    pair.keep_steps_forked(rt, reach)?;
    Ok(pair)
}

/// What the paths of a query are judged by: its optimum, and the trees from its two ends.
#[derive(Drop)]
pub(crate) struct Setting<'a> {
    pub(crate) star: &'a Star,
    pub(crate) pair: &'a TreePair<'a>,
    pub(crate) query: &'a Query,
    pub(crate) optimum: &'a Optimum,
    /// How far the trees reach: the stretch bound for a plan, the length of the path for a verdict.
    pub(crate) reach: u64,
}

impl<'a> Model for Setting<'a> {
    ghost use Rattle.via_search.specs.Settings.{Givens, IsSetting};

    ghost Value = { Givens };

    ghost view = { λ s. record {
      graph = s.star.now;
      query = s.query.now;
      optimum = s.optimum.now;
      reach = s.reach;
    } };

    ghost invariant = { λ s. IsSetting s.star.now s.pair.now s.query.now s.optimum.now s.reach };
}

impl<'a> Setting<'a> {
    /// The trees have to be those of the query, as far as `reach`. Takes no memory.
    pub(crate) fn of(
        star: &'a Star,
        pair: &'a TreePair<'a>,
        query: &'a Query,
        optimum: &'a Optimum,
        reach: u64,
    ) -> Setting<'a>
        requires posed { IsPosed star.now query.now optimum.now }
        requires trees { pair.now ≡ pair_of star.now query.now reach }
        ensures { result
            ≡ record {
              graph = star.now;
              query = query.now;
              optimum = optimum.now;
              reach = reach;
            } }
    {
        Setting {
            star,
            pair,
            query,
            optimum,
            reach,
        }
    }

    /// The query is posed with its optimum. Does nothing: a caller's proof learns it.
    #[inline(always)]
    pub(crate) fn is_posed(&self)
        ensures { IsPosed self.now.graph self.now.query self.now.optimum }
    {
        let _ = &self.reach;
    }
}
