//! A block with a look-up of its rows.

ghost use Rattle.std.specs.Prelude.{◌≡◌, ◌↔◌, ℕ, IsTrue, IfOk};
ghost use Rattle.std.specs.Ordering.{nat_cmp};
ghost use Rattle.std.specs.BTreeMap.{get};
ghost use Rattle.recheck.specs.Rows.{row_of};
ghost use Rattle.recheck.specs.Standing.{IsRising};

use crate::rows::find_row;
use certificate_text::{Block, BlockRow};
use road_model::NoMemory;
use std::alloc::Global;
use std::collections::BTreeMap;
use std::marker::Model;

/// Each vertex is above the one before.
fn is_rising(rows: &[BlockRow]) -> bool
    ensures { IsTrue result ↔ IsRising rows.now }
{
    for i in 1..rows.len() {
        if rows[i].vertex <= rows[i - 1].vertex {
            return false;
        }
    }
    true
}

/// The first row of each vertex.
fn first_rows(alloc: Global, rows: &[BlockRow]) -> Result<BTreeMap<u64, BlockRow>, NoMemory>
    ensures { IfOk result (λ m. (v : ℕ) → get nat_cmp m v ≡ row_of rows.now v) }
{
    let mut firsts = BTreeMap::new(alloc);
    for i in (0..rows.len()).rev() {
        firsts.insert(rows[i].vertex, rows[i])?;
    }
    Ok(firsts)
}

/// A block whose rows are found by their vertices. To a clause it is the block.
///
/// A look-up takes the logarithm of the rows. Where the vertices rise it takes no memory; where they don't, as only in a
/// certificate that fails, it takes a map.
#[derive(Drop)]
pub(crate) struct RowTable<'a> {
    block: &'a Block,
    /// The first row of each vertex, where the vertices don't rise.
    firsts: Option<BTreeMap<u64, BlockRow>>,
}

impl<'a> Model for RowTable<'a> {
    ghost use Rattle.certificate_text.specs.declared.certificate.Block.{Block};
    ghost use Rattle.recheck.specs.Tables.{FindsRows};

    ghost Value = { Block };

    ghost view = { λ t. t.block.now };

    ghost invariant = { λ t. FindsRows t.block.now.rows t.firsts };
}

impl<'a> RowTable<'a> {
    /// Takes time linear in the rows where their vertices rise.
    pub(crate) fn build(alloc: Global, block: &'a Block) -> Result<RowTable<'a>, NoMemory>
        ensures { IfOk result (λ t. t ≡ block.now) }
    {
        let rows = block.rows.as_slice();
        if is_rising(rows) {
            return Ok(RowTable {
                block,
                firsts: None,
            });
        }
        let firsts = first_rows(alloc, rows)?;
        Ok(RowTable {
            block,
            firsts: Some(firsts),
        })
    }

    pub(crate) fn block(&self) -> &'a Block
        ensures { result.now ≡ self.now }
    {
        self.block
    }

    /// The first row of the vertex.
    pub(crate) fn row(&self, vertex: u64) -> Option<BlockRow>
        ensures { result ≡ row_of self.now.rows vertex }
    {
        match &self.firsts {
            Some(firsts) => firsts.get(&vertex).copied(),
            None => find_row(self.block.rows.as_slice(), vertex),
        }
    }
}
