//! The blocks from the vertices of a path.

ghost use Rattle.std.specs.Prelude.{◌≡◌};
ghost use Rattle.std.specs.Option.{option_copied};
ghost use Rattle.certificate_text.specs.declared.certificate.BlockKind.TheVariants as kind;
ghost use Rattle.recheck.specs.Rows.{block_of};
ghost use Rattle.recheck.specs.Paths.{rows_from};
ghost use Rattle.recheck.specs.Standing.{IsRising};

use crate::basis::Basis;
use certificate_text::{Block, BlockKind, BlockRow};

/// The block from a vertex, if there is one. Its rows rise.
pub(crate) fn block_from<'a>(basis: &Basis<'a>, root: u64) -> Option<&'a Block>
    ensures block { option_copied result ≡ block_of basis.now.blocks kind.From root }
    ensures rising { IsRising (rows_from basis.now root) }
{
    basis.blocks.find(BlockKind::From, root)
}

/// The rows of the block from a vertex, none where there is no such block.
pub(crate) fn rows_from<'a>(basis: &Basis<'a>, root: u64) -> &'a [BlockRow]
    ensures rows { result.now ≡ rows_from basis.now root }
    ensures rising { IsRising result.now }
{
    match block_from(basis, root) {
        Some(block) => block.rows.as_slice(),
        None => &[],
    }
}
