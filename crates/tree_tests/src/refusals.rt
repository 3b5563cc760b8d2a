//! Refusals by the two trees alone: a subpath round a vertex that fails a test, whose ends are as far apart as one of the
//! trees tells.

ghost use Rattle.std.specs.Prelude.{◌≡◌, ◌<◌, ◌^◌, IfOk, IfSome, IsTrue, None};
ghost use Rattle.road_model.specs.Walk.{walk_length};
ghost use Rattle.tree_tests.specs.Ancestors.{AreAncestors, IsOn, opposite};
ghost use Rattle.tree_tests.specs.Never.{IsNever};

use crate::ancestors::{Ancestor, NO_ANCESTOR, ahead, fill, met};
use crate::sides::{Side, label, opposite};
use canonical_trees::TreePair;
use road_model::{NoMemory, Query, Vertex};
use stamped_table::Table;
use std::alloc::Global;
use std::marker::Model;

/// How many arcs apart the places are that are tried on one side of a path.
const STEPS: [u32; 7] = [1, 2, 4, 8, 16, 32, 64];

/// The subpath between `y` and `x` by way of `w` has to be shortest and isn't, or is stretched too far. Both lie on
/// canonical paths of `w`, and `y` on the one of `x` too, so that their distance is the difference of two labels.
fn is_detour(
    pair: &TreePair<'_>,
    side: Side,
    y: Vertex,
    w: Vertex,
    x: Vertex,
    query: &Query,
    opt_len: u64,
) -> bool
    requires { query.now.from ≡ pair.now.source }
    ensures { IsTrue result → IsOn pair.now side y w → IsOn pair.now side y x → IsOn pair.now (opposite side) x w →
        IsNever pair.now query.now opt_len w }
{
    pair.star().within_limits();
    let other = opposite(side);
    let Some(start) = label(pair, side, y) else {
        return false;
    };
    let Some(end) = label(pair, side, x) else {
        return false;
    };
    let Some(near) = label(pair, side, w) else {
        return false;
    };
    let Some(left) = label(pair, other, w) else {
        return false;
    };
    let Some(rest) = label(pair, other, x) else {
        return false;
    };
    if near < start || left < rest || end < start {
        return false;
    }
    let long = (near - start) + (left - rest);
    let distance = end - start;
    if !query.epsilon.stretches(long, distance) {
        return true;
    }
    if long == distance {
        return false;
    }
    query.alpha.allows(long, opt_len)
}

/// The memory of the ways of a query, for one query after another. It tells nothing of the queries before.
///
/// It keeps 32 bytes a vertex of the largest graph so far, and 4 bytes an arc of the longest way.
#[derive(Drop)]
pub struct WayTables {
    from: Table<Ancestor>,
    to: Table<Ancestor>,
    stack: Vec<Vertex>,
}

impl WayTables {
    /// A memory for no graph yet: the first query over a graph lays it out. Takes no memory itself.
    pub fn new(alloc: Global) -> WayTables {
        WayTables {
            from: Table::new(alloc, NO_ANCESTOR),
            to: Table::new(alloc, NO_ANCESTOR),
            stack: Vec::new(alloc),
        }
    }
}

/// The ways to both roots, which are kept once they are known.
#[derive(Drop)]
pub struct Refusals<'a> {
    pair: &'a TreePair<'a>,
    tables: WayTables,
}

impl<'a> Model for Refusals<'a> {
    ghost use Rattle.canonical_trees.specs.Trees.{Trees};
    ghost use Rattle.tree_tests.specs.Ancestors.{AreWays};

    ghost Value = { Trees };

    ghost view = { λ r. r.pair.now };

    ghost invariant = { λ r. AreWays r.pair.now r.tables.from r.tables.to };
}

/// The walk through `w` has a detour that ends at `x`, or begins there, on its way to the other root.
fn tried(
    pair: &TreePair<'_>,
    side: Side,
    own: &mut Table<Ancestor>,
    stack: &mut Vec<Vertex>,
    w: Vertex,
    x: Vertex,
    query: &Query,
    opt_len: u64,
) -> Result<bool, NoMemory>
    requires from { query.now.from ≡ pair.now.source }
    requires ways { AreAncestors pair.now side own.old }
    ensures ways { AreAncestors pair.now side own.new }
    ensures never { IfOk result (λ r. IsTrue r → IsOn pair.now (opposite side) x w → IsNever pair.now query.now opt_len w) }
{
    pair.star().within_limits();
    let Some(_near) = label(pair, side, w) else {
        return Ok(false);
    };
    let Some(_far) = label(pair, side, x) else {
        return Ok(false);
    };
    fill(pair, side, own, stack, x)?;
    let Some(y) = met(own, w, x) else {
        return Ok(false);
    };
    Ok(is_detour(pair, side, y, w, x, query, opt_len))
}

/// The walk through `w` has a detour that begins on the way of `w` to one root and ends on the way to the other.
fn has_detour(
    pair: &TreePair<'_>,
    side: Side,
    own: &mut Table<Ancestor>,
    other: &mut Table<Ancestor>,
    stack: &mut Vec<Vertex>,
    w: Vertex,
    query: &Query,
    opt_len: u64,
) -> Result<bool, NoMemory>
    requires from { query.now.from ≡ pair.now.source }
    requires ways { AreAncestors pair.now side own.old }
    requires others { AreAncestors pair.now (opposite side) other.old }
    ensures ways { AreAncestors pair.now side own.new }
    ensures others { AreAncestors pair.now (opposite side) other.new }
    ensures never { IfOk result (λ r. IsTrue r → IsNever pair.now query.now opt_len w) }
{
    fill(pair, side, own, stack, w)?;
    fill(pair, opposite(side), other, stack, w)?;
    let mut x = w;
    for steps in STEPS {
        let Some(next) = ahead(other, x, steps) else {
            return Ok(false);
        };
        x = next;
        if tried(pair, side, own, stack, w, x, query, opt_len)? {
            return Ok(true);
        }
    }
    Ok(false)
}

impl<'a> Refusals<'a> {
    /// No way yet, in a kept memory, which `into_tables` gives back. Takes 32 bytes a vertex only where the memory
    /// served no graph with as many vertices before.
    pub fn new(pair: &'a TreePair<'a>, mut tables: WayTables) -> Result<Refusals<'a>, NoMemory>
        ensures { IfOk result (λ r. r ≡ pair.now) }
    {
        let places = pair.star().vertices() as usize + 1;
        tables.from.empty(places)?;
        tables.to.empty(places)?;
        Ok(Refusals { pair, tables })
    }

    /// The memory back, for another query. Takes no memory.
    pub fn into_tables(self) -> WayTables {
        let Refusals { pair: _, tables } = self;
        tables
    }

    /// The path through `w` is refused: it can't be admissible, since a subpath of it that ends so many arcs after `w`
    /// has to be shortest and isn't, or is stretched too far. Such places are tried at 1, 3, 7 and more arcs. False says
    /// nothing. Takes logarithmic time for each of them, once the ways to the roots are known.
    pub fn refuses_after(
        &mut self,
        w: Vertex,
        query: &Query,
        opt_len: u64,
    ) -> Result<bool, NoMemory>
        requires from { query.now.from ≡ self.old.source }
        ensures never { IfOk result (λ r. IsTrue r → IsNever self.old query.now opt_len w) }
        ensures same { self.new ≡ self.old }
    {
        has_detour(
            self.pair,
            Side::Source,
            &mut self.tables.from,
            &mut self.tables.to,
            &mut self.tables.stack,
            w,
            query,
            opt_len,
        )
    }

    /// The same by subpaths that begin so many arcs before `w`.
    pub fn refuses_before(
        &mut self,
        w: Vertex,
        query: &Query,
        opt_len: u64,
    ) -> Result<bool, NoMemory>
        requires from { query.now.from ≡ self.old.source }
        ensures never { IfOk result (λ r. IsTrue r → IsNever self.old query.now opt_len w) }
        ensures same { self.new ≡ self.old }
    {
        has_detour(
            self.pair,
            Side::Target,
            &mut self.tables.to,
            &mut self.tables.from,
            &mut self.tables.stack,
            w,
            query,
            opt_len,
        )
    }
}
