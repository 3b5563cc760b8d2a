//! The checks on the optimum.

ghost use Rattle.std.specs.Prelude.{◌≡◌, ◌≤◌, ◌↔◌, ℕ, IsTrue, IfOk};
ghost use Rattle.road_model.specs.Fraction.{Stretches};
ghost use Rattle.recheck.specs.Paths.{IsBest, IsBounded};

use crate::basis::Basis;
use crate::measures::scaled;
use crate::rows::find_row;
use crate::walks::{follows, mirrored};
use certificate_text::BlockKind;
use road_model::{NoMemory, Ratio};
use std::alloc::Global;

/// Whether the optimum is what the block from the source gives for the target, and there is a block to the target.
///
/// It takes 8 bytes an arc of the optimum; each arc costs the logarithm of the rows.
pub(crate) fn is_best(alloc: Global, basis: &Basis) -> Result<bool, NoMemory>
    ensures { IfOk result (λ is. IsTrue is ↔ IsBest basis.now) }
{
    let from = basis.query.from.number() as u64;
    let to = basis.query.to.number() as u64;
    if !basis.blocks.has_block(BlockKind::From, from) {
        return Ok(false);
    }
    if !basis.blocks.has_block(BlockKind::To, to) {
        return Ok(false);
    }
    let Some(row) = find_row(basis.from_rows, to) else {
        return Ok(false);
    };
    if basis.best != row.label {
        return Ok(false);
    }
    let walk = mirrored(alloc, basis.optimum)?;
    let is = follows(&basis.star.reversed(), basis.from_rows, from, to, &walk);
    Ok(is)
}

// The greatest length that is at most `whole` and this ratio of `whole` more.
fn stretched(ratio: &Ratio, whole: u64) -> u128
    ensures within { Stretches ratio.now result whole }
    ensures greatest { (n : ℕ) → Stretches ratio.now n whole → n ≤ result }
{
    let den = ratio.den();
    scaled(whole as u128, den + ratio.num()) / den as u128
}

/// Whether the blocks from the source and to the target reach as far as an alternative may be long.
pub(crate) fn is_bounded(basis: &Basis) -> bool
    ensures { IsTrue result ↔ IsBounded basis.now }
{
    let from = basis.query.from.number() as u64;
    let to = basis.query.to.number() as u64;
    let bound = stretched(&basis.query.epsilon, basis.best);
    basis.blocks.reaches(BlockKind::From, from, bound)
        && basis.blocks.reaches(BlockKind::To, to, bound)
}
