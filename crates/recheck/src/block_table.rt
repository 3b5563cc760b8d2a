//! Blocks with a look-up by direction and root.

ghost use Rattle.std.specs.Prelude.{◌≡◌, ◌≤◌, ◌↔◌, IsTrue, IfOk, None, take};
ghost use Rattle.std.specs.Option.{option_copied};
ghost use Rattle.recheck.specs.Rows.{HasBlock, Reaches, block_of};
ghost use Rattle.recheck.specs.Tables.{place_of};

use crate::row_tests::is_within;
use certificate_text::{Block, BlockKind};
use road_model::NoMemory;
use std::alloc::Global;
use std::collections::BTreeMap;
use std::marker::Model;

/// Blocks that are found by their direction and root. To a clause it is the list of blocks.
///
/// A look-up takes the logarithm of the blocks. It takes memory for two maps, with an entry for each root.
#[derive(Drop)]
pub(crate) struct BlockTable<'a> {
    blocks: &'a [Block],
    /// The place of the first block from each root.
    from: BTreeMap<u64, usize>,
    /// The place of the first block to each root.
    to: BTreeMap<u64, usize>,
}

impl<'a> Model for BlockTable<'a> {
    ghost use Rattle.std.specs.Prelude.{List};
    ghost use Rattle.certificate_text.specs.declared.certificate.Block.{Block};
    ghost use Rattle.recheck.specs.Tables.{FindsBlocks};

    ghost Value = { List Block };

    ghost view = { λ t. t.blocks.now };

    ghost invariant = { λ t. FindsBlocks t.blocks.now t.from t.to };
}

impl<'a> BlockTable<'a> {
    pub(crate) fn build(alloc: Global, blocks: &'a [Block]) -> Result<BlockTable<'a>, NoMemory>
        ensures { IfOk result (λ t. t ≡ blocks.now) }
    {
        let mut from = BTreeMap::new(alloc);
        let mut to = BTreeMap::new(alloc);
        for i in (0..blocks.len()).rev() {
            let block = &blocks[i];
            match block.kind {
                BlockKind::From => {
                    from.insert(block.root, i)?;
                }
                BlockKind::To => {
                    to.insert(block.root, i)?;
                }
            }
        }
        Ok(BlockTable { blocks, from, to })
    }

    pub(crate) fn blocks(&self) -> &'a [Block]
        ensures { result.now ≡ self.now }
    {
        self.blocks
    }

    /// The place of the first block of the direction and the root.
    fn place(&self, kind: BlockKind, root: u64) -> Option<usize>
        ensures { result ≡ place_of self.now kind root }
    {
        match kind {
            BlockKind::From => self.from.get(&root).copied(),
            BlockKind::To => self.to.get(&root).copied(),
        }
    }

    /// The first block of the direction and the root.
    pub(crate) fn find(&self, kind: BlockKind, root: u64) -> Option<&'a Block>
        ensures { option_copied result ≡ block_of self.now kind root }
    {
        match self.place(kind, root) {
            Some(place) => Some(&self.blocks[place]),
            None => None,
        }
    }

    /// There is a block of the direction and the root.
    pub(crate) fn has_block(&self, kind: BlockKind, root: u64) -> bool
        ensures { IsTrue result ↔ HasBlock self.now kind root }
    {
        match self.find(kind, root) {
            Some(_block) => true,
            None => false,
        }
    }

    /// There is one, and its radius is at least this length.
    pub(crate) fn reaches(&self, kind: BlockKind, root: u64, length: u128) -> bool
        ensures { IsTrue result ↔ Reaches self.now kind root (λ n. n ≤ length) }
    {
        match self.find(kind, root) {
            Some(block) => is_within(block.radius, length),
            None => false,
        }
    }

    /// No block before this place is of the direction and the root.
    pub(crate) fn is_new(&self, kind: BlockKind, root: u64, place: usize) -> bool
        ensures { IsTrue result ↔ (block_of (take place self.now) kind root ≡ None) }
    {
        match self.place(kind, root) {
            Some(first) => first >= place,
            None => true,
        }
    }
}
