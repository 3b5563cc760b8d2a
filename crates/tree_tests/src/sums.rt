//! Sums of shared lengths along the trees.

ghost use Rattle.std.specs.Prelude.{◌≡◌, ◌≤◌, ◌<◌, ◌^◌, ℕ, List, None, IfOk, IsPermutation, if◌then◌else◌, ◌==◌};
ghost use Rattle.std.specs.List.{list_any, slice_index_or};
ghost use Rattle.std.specs.List.Sorted.{IsNonDecreasing};
ghost use Rattle.tree_tests.specs.Sums.{IsInTree, IsSumAt, AreSums, carried};
ghost use Rattle.tree_tests.specs.declared.sides.Side.TheVariants.{Source, Target};
ghost use Rattle.road_model.specs.Alternatives.{IsVia};

use crate::sides::{Side, distance, step_up};
use canonical_trees::TreePair;
use road_model::{ArcList, ArcNo, NoMemory, Step, Vertex};
use stamped_table::{Stamped, Table};
use std::alloc::Global;
use std::marker::Model;
use std::mem::size_of;

// An entry of a table takes 16 bytes.
const _: () = prove!(size_of::<Stamped<u64>>() == 16);

/// What a step adds: its length, if its arc is one of these.
pub(crate) fn weight(ascending: &[u32], step: &Step) -> u64
    requires { IsNonDecreasing ascending.now }
    ensures { result ≡ (if list_any (λ b. b == step.now.arc) ascending.now then step.now.length else 0) }
{
    match ascending.binary_search(&step.arc.number()) {
        Ok(_place) => step.length,
        Err(_place) => 0,
    }
}

/// The sum of a vertex, if it is there.
fn known(sums: &Table<u64>, v: Vertex) -> Option<u64>
    ensures { result ≡ slice_index_or sums.now v None }
{
    sums.get(v.number() as usize)
}

/// The sum of a vertex, from the first vertex towards the root that has one.
fn climbed(pair: &TreePair<'_>, side: Side, ascending: &[u32], sums: &Table<u64>, v: Vertex) -> u64
    requires rising { IsNonDecreasing ascending.now }
    requires sums { AreSums pair.now side ascending.now sums.now }
    requires inside { IsInTree pair.now side v }
    ensures { IsSumAt pair.now side ascending.now v result }
{
    let mut sum = 0;
    let mut at = v;
    let mut near = distance(pair, side, v);
    loop {
        if let Some(rest) = known(sums, at) {
            return sum + rest;
        }
        let Some(step) = step_up(pair, side, at) else {
            return sum;
        };
        sum += weight(ascending, &step);
        at = step.head;
        near = distance(pair, side, at);
    }
}

/// Writes the sum of a vertex, and those of the vertices from there towards the root that have none yet.
fn fill(
    pair: &TreePair<'_>,
    side: Side,
    ascending: &[u32],
    sums: &mut Table<u64>,
    v: Vertex,
    sum: u64,
)
    requires rising { IsNonDecreasing ascending.now }
    requires sums { AreSums pair.now side ascending.now sums.old }
    requires inside { IsInTree pair.now side v }
    requires sum { IsSumAt pair.now side ascending.now v sum }
    ensures { AreSums pair.now side ascending.now sums.new }
{
    let mut left = sum;
    let mut at = v;
    let mut near = distance(pair, side, v);
    while known(sums, at).is_none() {
        sums.set(at.number() as usize, left);
        let Some(step) = step_up(pair, side, at) else {
            return;
        };
        left -= weight(ascending, &step);
        at = step.head;
        near = distance(pair, side, at);
    }
}

/// The sum of a vertex, which is kept.
pub(crate) fn sum_at(
    pair: &TreePair<'_>,
    side: Side,
    ascending: &[u32],
    sums: &mut Table<u64>,
    v: Vertex,
) -> u64
    requires rising { IsNonDecreasing ascending.now }
    requires sums { AreSums pair.now side ascending.now sums.old }
    requires inside { IsInTree pair.now side v }
    ensures sum { IsSumAt pair.now side ascending.now v result }
    ensures short { result < 2 ^ 57 }
    ensures sums { AreSums pair.now side ascending.now sums.new }
{
    let _distance = distance(pair, side, v);
    if let Some(sum) = known(sums, v) {
        return sum;
    }
    let sum = climbed(pair, side, ascending, sums, v);
    fill(pair, side, ascending, sums, v, sum);
    sum
}

/// The memory of the sums of a query, for one query after another. It tells nothing of the queries before.
///
/// It keeps 32 bytes a vertex of the largest graph so far.
#[derive(Drop)]
pub struct SumTables {
    from: Table<u64>,
    to: Table<u64>,
}

impl SumTables {
    /// A memory for no graph yet: the first query over a graph lays it out. Takes no memory itself.
    pub fn new(alloc: Global) -> SumTables {
        SumTables {
            from: Table::new(alloc, 0),
            to: Table::new(alloc, 0),
        }
    }
}

/// The shared lengths of the paths through vertices, where those are kept that were asked for before.
#[derive(Drop)]
pub struct SharedSums<'a> {
    pair: &'a TreePair<'a>,
    optimum: &'a ArcList,
    ascending: Vec<u32>,
    tables: SumTables,
}

impl<'a> Model for SharedSums<'a> {
    ghost use Rattle.tree_tests.specs.Sums.{Shares, AreKept};

    ghost Value = { Shares };

    ghost view = { λ s. record { trees = s.pair.now; optimum = s.optimum.now } };

    ghost invariant = { λ s. AreKept s.pair.now s.optimum.now s.ascending.items s.tables.from s.tables.to };
}

/// The numbers of these arcs, ascending.
fn ascending(alloc: Global, arcs: &[ArcNo]) -> Result<Vec<u32>, NoMemory>
    ensures permutation { IfOk result (λ ns. IsPermutation arcs.now ns.items) }
    ensures order { IfOk result (λ ns. IsNonDecreasing ns.items) }
{
    let mut numbers = Vec::new(alloc);
    for arc in arcs {
        numbers.push(arc.number())?;
    }
    numbers.sort()?;
    Ok(numbers)
}

impl<'a> SharedSums<'a> {
    /// No sum yet, in a kept memory, which `into_tables` gives back. Takes 4 bytes an arc of the optimum, and 32 bytes
    /// a vertex only where the memory served no graph with as many vertices before.
    pub fn new(
        alloc: Global,
        pair: &'a TreePair<'a>,
        optimum: &'a ArcList,
        mut tables: SumTables,
    ) -> Result<SharedSums<'a>, NoMemory>
        ensures { IfOk result (λ s. s ≡ record { trees = pair.now; optimum = optimum.now }) }
    {
        let places = pair.star().vertices() as usize + 1;
        tables.from.empty(places)?;
        tables.to.empty(places)?;
        let ascending = ascending(alloc, optimum.as_slice())?;
        Ok(SharedSums {
            pair,
            optimum,
            ascending,
            tables,
        })
    }

    /// The memory back, for another query. Takes no memory.
    pub fn into_tables(self) -> SumTables {
        let SharedSums {
            pair: _,
            optimum: _,
            ascending: _,
            tables,
        } = self;
        tables
    }

    /// The length of those arcs of the path through a vertex that are on the optimum, each as often as the path has
    /// it. A vertex that lies on the way of one that was asked for before takes constant time; each other one the
    /// time of the arcs on the way to such a vertex. Takes no memory.
    pub fn through(&mut self, v: Vertex) -> u64
        requires from { IsInTree self.old.trees Source v }
        requires to { IsInTree self.old.trees Target v }
        ensures sum { (p : List ℕ) → IsVia self.old.trees.graph self.old.trees.source self.old.trees.target v p
            → result ≡ carried self.old.trees.graph self.old.optimum p }
        ensures short { result < 2 ^ 58 }
        ensures same { self.new ≡ self.old }
    {
        let from = sum_at(
            self.pair,
            Side::Source,
            self.ascending.as_slice(),
            &mut self.tables.from,
            v,
        );
        let to = sum_at(
            self.pair,
            Side::Target,
            self.ascending.as_slice(),
            &mut self.tables.to,
            v,
        );
        from + to
    }
}
