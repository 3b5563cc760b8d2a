//! The checks of one block.

ghost use Rattle.std.specs.Prelude.{◌≡◌, ◌<◌, ◌^◌, IfOk};
ghost use Rattle.road_model.specs.Graph.{Graph, arc_count, reversed};
ghost use Rattle.recheck.specs.Rows.{toward};
ghost use Rattle.recheck.specs.RowTests.{IsTreeFault};
ghost use Rattle.recheck.specs.Checks.{done, FindsFirst, row_checks, rows_checks, end_checks};

use crate::lines::{fault, later_line};
use crate::row_table::RowTable;
use crate::row_tests::{
    has_arc, has_row, is_closed, is_least, is_root_row, is_tight, is_vertex_row, is_within,
};
use certificate_text::{Block, BlockKind, BlockRow, CertFault, CertKind};
use forward_star::Star;
use road_model::{Network, NoMemory};
use std::alloc::Global;

/// The first check that a row fails.
fn row_fault<N: Network>(
    toward: &N,
    table: &RowTable<'_>,
    line: u64,
    before: u64,
    row: BlockRow,
) -> Option<CertFault>
    requires { arc_count (N.graph toward.now) < 2 ^ 32 }
    ensures { FindsFirst (row_checks (N.graph toward.now) table.now line before row done) result }
{
    let kind = if !is_vertex_row(toward.vertices(), before, row) {
        CertKind::Vertex
    } else if !is_within(table.block().radius, row.label as u128) {
        CertKind::Radius
    } else if !is_root_row(table.block().root, row) {
        CertKind::Root
    } else if !has_arc(toward, table, row) {
        CertKind::Arc
    } else if !is_tight(toward, table, row) {
        CertKind::Tight
    } else if !is_least(toward, table, row) {
        CertKind::Least
    } else {
        return None;
    };
    Some(fault(line, kind))
}

/// The first check that the rows fail, where the first one stands on this line.
fn rows_fault<N: Network>(
    toward: &N,
    table: &RowTable<'_>,
    first: u64,
) -> Result<Option<CertFault>, NoMemory>
    requires { arc_count (N.graph toward.now) < 2 ^ 32 }
    ensures { IfOk result (λ o. FindsFirst (rows_checks (N.graph toward.now) table.now first 0 table.now.rows done) o) }
{
    let mut line = first;
    let mut before = 0;
    for row in table.block().rows.as_slice() {
        if let Some(fault) = row_fault(toward, table, line, before, *row) {
            return Ok(Some(fault));
        }
        line = later_line(line, 1)?;
        before = row.vertex;
    }
    Ok(None)
}

/// The first check that the end of the block, on this line, fails; `away` is the network turned round.
fn end_fault<M: Network>(away: &M, table: &RowTable<'_>, line: u64) -> Option<CertFault>
    requires { arc_count (M.graph away.now) < 2 ^ 32 }
    ensures { (h : Graph) → M.graph away.now ≡ reversed h → FindsFirst (end_checks h table.now line done) result }
{
    if !has_row(table, table.block().root) {
        return Some(fault(line, CertKind::Rootless));
    }
    if !is_closed(away, table) {
        return Some(fault(line, CertKind::Closed));
    }
    None
}

/// The first check that the rows, from this line on, or the end fail; `away` is the network turned round.
fn tree_fault<N: Network, M: Network>(
    toward: &N,
    away: &M,
    table: &RowTable<'_>,
    first: u64,
) -> Result<Option<CertFault>, NoMemory>
    requires few { arc_count (N.graph toward.now) < 2 ^ 32 }
    requires turned { M.graph away.now ≡ reversed (N.graph toward.now) }
    ensures { IfOk result (λ o. IsTreeFault (N.graph toward.now) table.now first o) }
{
    if let Some(fault) = rows_fault(toward, table, first)? {
        return Ok(Some(fault));
    }
    let line = later_line(first, table.block().rows.len() as u64)?;
    Ok(end_fault(away, table, line))
}

/// The first check that a block's rows, from this line on, or its end fail. Each row takes a look-up for each arc of its
/// vertex.
pub(crate) fn block_fault(
    alloc: Global,
    star: &Star,
    block: &Block,
    first: u64,
) -> Result<Option<CertFault>, NoMemory>
    ensures { IfOk result (λ o. IsTreeFault (toward block.now.kind star.now) block.now first o) }
{
    let table = RowTable::build(alloc, block)?;
    star.within_limits();
    match block.kind {
        BlockKind::From => tree_fault(&star.reversed(), star, &table, first),
        BlockKind::To => tree_fault(star, &star.reversed(), &table, first),
    }
}
