//! The checks of all blocks.

ghost use Rattle.std.specs.Prelude.{◌≡◌, [], ◌↔◌, IfOk, IsTrue, None, take};
ghost use Rattle.road_model.specs.Graph.{IsVertex};
ghost use Rattle.recheck.specs.Rows.{block_of};
ghost use Rattle.recheck.specs.Lines.{line_after, line_after_routes};
ghost use Rattle.recheck.specs.Checks.{done, FindsFirst, block_checks, blocks_checks};

use crate::block::block_fault;
use crate::block_table::BlockTable;
use crate::lines::{fault, later_line};
use certificate_text::{Block, CertFault, CertKind, CertRoute};
use forward_star::Star;
use road_model::NoMemory;
use std::alloc::Global;

/// The root is a vertex, and no block before this place has the same direction and root.
fn is_block(vertices: u32, table: &BlockTable<'_>, place: usize, block: &Block) -> bool
    ensures { IsTrue result ↔ (IsVertex vertices block.now.root × (block_of (take place table.now) block.now.kind block.now.root ≡ None)) }
{
    block.root >= 1 && block.root <= vertices as u64 && table.is_new(block.kind, block.root, place)
}

/// The first check that a block fails, where it begins on this line, after as many blocks of the table.
fn whole_block_fault(
    alloc: Global,
    star: &Star,
    table: &BlockTable<'_>,
    place: usize,
    block: &Block,
    line: u64,
) -> Result<Option<CertFault>, NoMemory>
    ensures { IfOk result (λ o. FindsFirst (block_checks star.now (take place table.now) line block.now done) o) }
{
    if !is_block(star.vertices(), table, place, block) {
        return Ok(Some(fault(line, CertKind::Block)));
    }
    let first = later_line(line, 1)?;
    block_fault(alloc, star, block, first)
}

/// The first check that the blocks fail, where the first one begins on this line.
pub(crate) fn blocks_fault(
    alloc: Global,
    star: &Star,
    table: &BlockTable<'_>,
    first: u64,
) -> Result<Option<CertFault>, NoMemory>
    ensures { IfOk result (λ o. FindsFirst (blocks_checks star.now [] first table.now (λ _. done)) o) }
{
    let blocks = table.blocks();
    let mut line = first;
    for i in 0..blocks.len() {
        let block = &blocks[i];
        match whole_block_fault(alloc, star, table, i, block, line) {
            Err(e) => return Err(e),
            Ok(Some(fault)) => return Ok(Some(fault)),
            Ok(None) => {}
        }
        line = later_line(line, 2)?;
        line = later_line(line, block.rows.len() as u64)?;
    }
    Ok(None)
}

/// The line after blocks, the first of which begins on this line.
pub(crate) fn line_after(first: u64, blocks: &[Block]) -> Result<u64, NoMemory>
    ensures { IfOk result (λ n. n ≡ line_after first blocks.now) }
{
    let mut line = first;
    for block in blocks {
        line = later_line(line, 2)?;
        line = later_line(line, block.rows.len() as u64)?;
    }
    Ok(line)
}

/// The line after routes, the first of which stands on this line.
pub(crate) fn line_after_routes(first: u64, routes: &[CertRoute]) -> Result<u64, NoMemory>
    ensures { IfOk result (λ n. n ≡ line_after_routes first routes.now) }
{
    later_line(first, routes.len() as u64)
}
