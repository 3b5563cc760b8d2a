//! The walks that the arcs of rows give.

ghost use Rattle.std.specs.Prelude.{◌≡◌, ◌≢◌, ◌<◌, ◌++◌, ◌^◌, ◌↔◌, reverse, IfOk, IsTrue};
ghost use Rattle.road_model.specs.Graph.{arc_count};
ghost use Rattle.recheck.specs.Rows.{HasRow};
ghost use Rattle.recheck.specs.Paths.{Follows, IsNear, IsThrough};
ghost use Rattle.recheck.specs.Standing.{IsRising, LeadsDown};
ghost use Rattle.recheck.specs.Steps.{IsStepDown, IsAlong};

use crate::arcs::find_arc;
use crate::basis::Basis;
use crate::rows::find_row;
use certificate_text::BlockRow;
use road_model::{ArcRow, Network, NoMemory};
use std::alloc::Global;

// The arc of the row of a vertex that isn't the root, with its number.
fn step_down<N: Network>(net: &N, rows: &[BlockRow], root: u64, at: u64) -> (u64, ArcRow)
    requires few { arc_count (N.graph net.now) < 2 ^ 32 }
    requires down { LeadsDown (N.graph net.now) rows.now root }
    requires there { HasRow rows.now at }
    requires other { at ≢ root }
    ensures { IsStepDown (N.graph net.now) rows.now at result.0 result.1 }
{
    let Some(row) = find_row(rows, at) else {
        unreachable!()
    };
    let Some(arc) = find_arc(net, row.arc) else {
        unreachable!()
    };
    (row.arc, arc)
}

/// The walk from a vertex to the root that the arcs of the rows give. Time: its arcs, each with the logarithm of the rows.
pub(crate) fn walk_from<N: Network>(
    alloc: Global,
    net: &N,
    rows: &[BlockRow],
    root: u64,
    v: u64,
) -> Result<Vec<u64>, NoMemory>
    requires few { arc_count (N.graph net.now) < 2 ^ 32 }
    requires down { LeadsDown (N.graph net.now) rows.now root }
    requires there { HasRow rows.now v }
    ensures { IfOk result (λ p. Follows (N.graph net.now) rows.now root v p.items) }
{
    let _vertices = net.vertices();
    let mut walk = Vec::new(alloc);
    let mut at = v;
    while at != root {
        let (number, arc) = step_down(net, rows, root, at);
        walk.push(number)?;
        at = arc.head.number() as u64;
    }
    Ok(walk)
}

/// The arcs of a walk in the other order.
pub(crate) fn mirrored(alloc: Global, arcs: &[u64]) -> Result<Vec<u64>, NoMemory>
    ensures { IfOk result (λ p. p.items ≡ reverse arcs.now) }
{
    arcs.iter().rev().copied().collect(alloc)
}

// The arcs of a walk to the source, turned round, and then those of a walk to the target.
fn joined_walks(alloc: Global, prefix: &[u64], back: &[u64]) -> Result<Vec<u64>, NoMemory>
    ensures { IfOk result (λ p. p.items ≡ reverse prefix.now ++ back.now) }
{
    let mut path = mirrored(alloc, prefix)?;
    path.extend_from_slice(back)?;
    Ok(path)
}

/// The path through a near vertex that the two blocks give.
pub(crate) fn path_through(alloc: Global, basis: &Basis, v: u64) -> Result<Vec<u64>, NoMemory>
    requires { IsNear basis.now v }
    ensures { IfOk result (λ p. IsThrough basis.now v p.items) }
{
    let from = basis.query.from.number() as u64;
    let to = basis.query.to.number() as u64;
    let prefix = walk_from(alloc, &basis.star.reversed(), basis.from_rows, from, v)?;
    let back = walk_from(alloc, basis.star, basis.to_rows, to, v)?;
    let path = joined_walks(alloc, &prefix, &back)?;
    Ok(path)
}

/// Whether these arcs are what the rows give from a vertex to the root.
pub(crate) fn follows<N: Network>(
    net: &N,
    rows: &[BlockRow],
    root: u64,
    v: u64,
    arcs: &[u64],
) -> bool
    requires few { arc_count (N.graph net.now) < 2 ^ 32 }
    requires rising { IsRising rows.now }
    ensures { IsTrue result ↔ Follows (N.graph net.now) rows.now root v arcs.now }
{
    let mut at = v;
    for a in arcs {
        let Some(head) = head_along(net, rows, root, at, *a) else {
            return false;
        };
        at = head;
    }
    at == root
}

// Where an arc leads, if it is that of the vertex's row, and the vertex isn't the root.
fn head_along<N: Network>(net: &N, rows: &[BlockRow], root: u64, at: u64, arc: u64) -> Option<u64>
    requires few { arc_count (N.graph net.now) < 2 ^ 32 }
    requires rising { IsRising rows.now }
    ensures { IsAlong (N.graph net.now) rows.now root at arc result }
{
    if at == root {
        return None;
    }
    let row = find_row(rows, at)?;
    if row.arc != arc {
        return None;
    }
    let found = find_arc(net, arc)?;
    Some(found.head.number() as u64)
}

/// Whether these arcs are the path through a near vertex that the two blocks give. It makes that path, and compares.
pub(crate) fn is_through(
    alloc: Global,
    basis: &Basis,
    v: u64,
    arcs: &[u64],
) -> Result<bool, NoMemory>
    requires { IsNear basis.now v }
    ensures { IfOk result (λ is. IsTrue is ↔ IsThrough basis.now v arcs.now) }
{
    let path = path_through(alloc, basis, v)?;
    Ok(same_numbers(&path, arcs))
}

/// Whether two lists of numbers are one.
pub(crate) fn same_numbers(some: &[u64], others: &[u64]) -> bool
    ensures { IsTrue result ↔ (some.now ≡ others.now) }
{
    some == others
}
