//! The checks on a row and on a block's end, each as a test. The network is the one whose walks lead to the block's root.

ghost use Rattle.std.specs.Prelude.{◌≡◌, ◌<◌, ◌^◌, ◌↔◌, ◌⊎◌, IsTrue, IfSome, MatchOption};
ghost use Rattle.road_model.specs.Graph.{IsVertex, arc_count};
ghost use Rattle.tree_search.specs.Ball.{IsWithin};
ghost use Rattle.recheck.specs.Rows.{HasRow, HasRowBelow, LeadsOn, IsTightFor, IsLeastFor, IsRootRow};
ghost use Rattle.recheck.specs.RowTests.{IsSumBeyond, IsTightStep, IsClosedAt, AreClosed};

use crate::arcs::find_arc;
use crate::row_table::RowTable;
use certificate_text::BlockRow;
use road_model::{Network, Step, Vertex};

/// The vertex of this number, if there is one.
pub(crate) fn vertex_in(vertices: u32, number: u64) -> Option<Vertex>
    ensures value { MatchOption result (IsVertex vertices number → ⊥) (λ v. v ≡ number) }
    ensures inside { IfSome result (λ v. IsVertex vertices number) }
{
    if number < 1 || number > vertices as u64 {
        return None;
    }
    Some(Vertex(number as u32))
}

/// The row's vertex is one, and is above that of the row before.
pub(crate) fn is_vertex_row(vertices: u32, before: u64, row: BlockRow) -> bool
    ensures { IsTrue result ↔ (IsVertex vertices row.vertex × (before < row.vertex)) }
{
    row.vertex >= 1 && row.vertex <= vertices as u64 && before < row.vertex
}

/// The length is at most the radius, if there is one.
pub(crate) fn is_within(radius: Option<u64>, length: u128) -> bool
    ensures { IsTrue result ↔ IsWithin radius length }
{
    match radius {
        Some(radius) => length <= radius as u128,
        None => true,
    }
}

/// The row is the root's exactly where its arc is 0, and has the label 0 then.
pub(crate) fn is_root_row(root: u64, row: BlockRow) -> bool
    ensures { IsTrue result ↔ IsRootRow root row }
{
    if row.arc == 0 {
        row.vertex == root && row.label == 0
    } else {
        row.vertex != root
    }
}

/// The label beyond the row's arc and the arc's length, where the arc leads from the row's vertex to one that has a row.
fn sum_beyond<N: Network>(toward: &N, table: &RowTable<'_>, row: BlockRow) -> Option<u128>
    requires { arc_count (N.graph toward.now) < 2 ^ 32 }
    ensures { IsSumBeyond (N.graph toward.now) table.now.rows row result }
{
    let arc = find_arc(toward, row.arc)?;
    if arc.tail.number() as u64 != row.vertex {
        return None;
    }
    let next = table.row(arc.head.number() as u64)?;
    Some(next.label as u128 + arc.length as u128)
}

/// The row is the root's, or its arc leads from its vertex to one that has a row.
pub(crate) fn has_arc<N: Network>(toward: &N, table: &RowTable<'_>, row: BlockRow) -> bool
    requires { arc_count (N.graph toward.now) < 2 ^ 32 }
    ensures { IsTrue result ↔ ((row.arc ≡ 0) ⊎ LeadsOn (N.graph toward.now) table.now.rows row row.arc) }
{
    if row.arc == 0 {
        return true;
    }
    match sum_beyond(toward, table, row) {
        Some(_) => true,
        None => false,
    }
}

/// And the label there and the arc's length make the row's label.
pub(crate) fn is_tight<N: Network>(toward: &N, table: &RowTable<'_>, row: BlockRow) -> bool
    requires { arc_count (N.graph toward.now) < 2 ^ 32 }
    ensures { IsTrue result ↔ ((row.arc ≡ 0) ⊎ IsTightFor (N.graph toward.now) table.now.rows row row.arc) }
{
    if row.arc == 0 {
        return true;
    }
    match sum_beyond(toward, table, row) {
        Some(sum) => sum == row.label as u128,
        None => false,
    }
}

/// The label beyond a step and the step's length make this label.
fn is_tight_step(table: &RowTable<'_>, label: u64, step: Step) -> bool
    ensures { IsTrue result ↔ IsTightStep table.now.rows label step }
{
    match table.row(step.head.number() as u64) {
        Some(next) => next.label as u128 + step.length as u128 == label as u128,
        None => false,
    }
}

/// No arc of a lower number is tight. Looks up the heads of the arcs below the row's own.
pub(crate) fn is_least<N: Network>(toward: &N, table: &RowTable<'_>, row: BlockRow) -> bool
    requires { arc_count (N.graph toward.now) < 2 ^ 32 }
    ensures { IsTrue result ↔ ((row.arc ≡ 0) ⊎ IsLeastFor (N.graph toward.now) table.now.rows row) }
{
    let Some(vertex) = vertex_in(toward.vertices(), row.vertex) else {
        return true;
    };
    let mut i = 0;
    while let Some(step) = toward.out(vertex, i) {
        if step.arc.number() as u64 >= row.arc {
            return true;
        }
        if is_tight_step(table, row.label, step) {
            return false;
        }
        i += 1;
    }
    true
}

/// The vertex has a row.
pub(crate) fn has_row(table: &RowTable<'_>, vertex: u64) -> bool
    ensures { IsTrue result ↔ HasRow table.now.rows vertex }
{
    match table.row(vertex) {
        Some(_) => true,
        None => false,
    }
}

/// The vertex has a row with at most this label.
fn has_row_below(table: &RowTable<'_>, vertex: u64, most: u128) -> bool
    ensures { IsTrue result ↔ HasRowBelow table.now.rows vertex most }
{
    match table.row(vertex) {
        Some(row) => row.label as u128 <= most,
        None => false,
    }
}

/// Each arc to the row's vertex comes from a vertex with a row that has no greater label than that along the arc, if that
/// is within the radius.
fn is_closed_at<M: Network>(away: &M, table: &RowTable<'_>, row: BlockRow) -> bool
    requires { arc_count (M.graph away.now) < 2 ^ 32 }
    ensures { IsTrue result ↔ IsClosedAt (M.graph away.now) table.now row }
{
    let Some(vertex) = vertex_in(away.vertices(), row.vertex) else {
        return true;
    };
    let radius = table.block().radius;
    let mut i = 0;
    while let Some(step) = away.out(vertex, i) {
        let sum = row.label as u128 + step.length as u128;
        if is_within(radius, sum) && !has_row_below(table, step.head.number() as u64, sum) {
            return false;
        }
        i += 1;
    }
    true
}

/// The rows are closed, where `away` is the network turned round. Looks up the tails of the arcs to all rows.
pub(crate) fn is_closed<M: Network>(away: &M, table: &RowTable<'_>) -> bool
    requires { arc_count (M.graph away.now) < 2 ^ 32 }
    ensures { IsTrue result ↔ AreClosed (M.graph away.now) table.now }
{
    for row in table.block().rows.as_slice() {
        if !is_closed_at(away, table, *row) {
            return false;
        }
    }
    true
}
