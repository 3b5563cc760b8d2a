//! The numbers of a route.

ghost use Rattle.std.specs.Prelude.{◌≡◌, ◌<◌, ◌^◌, ◌↔◌, IsTrue, IfOk};
ghost use Rattle.road_model.specs.Walk.{walk_length};
ghost use Rattle.road_model.specs.Alternatives.{rank_of};
ghost use Rattle.recheck.specs.Paths.{IsNear};
ghost use Rattle.recheck.specs.Standing.{IsRising};
ghost use Rattle.recheck.specs.Routes.{IsOwnPath, IsSpread, AreNumbers};
ghost use Rattle.recheck.specs.Runs.{label_of};

use crate::arcs::length_of;
use crate::basis::Basis;
use crate::measures::shared_length;
use crate::names::{side_after, side_before};
use crate::rows::find_row;
use certificate_text::{BlockRow, CertRoute};
use forward_star::Star;
use road_model::NoMemory;
use std::alloc::Global;

// The label of the vertex's row, and 0 where it has none.
fn label_at(rows: &[BlockRow], v: u64) -> u64
    requires { IsRising rows.now }
    ensures { result ≡ label_of rows.now v }
{
    match find_row(rows, v) {
        Some(row) => row.label,
        None => 0,
    }
}

/// The greatest difference of labels from the source between two near vertices with the path of a route: that between the
/// ends of their run. Time: the path's arcs, each with the logarithm of the rows.
pub(crate) fn spread_of(basis: &Basis, r: &CertRoute) -> u64
    requires near { IsNear basis.now r.now.via }
    requires own { IsOwnPath basis.now r.now }
    ensures { IsSpread basis.now r.now.arcs result }
{
    let after = side_after(basis, r.via);
    let before = side_before(basis, r.via);
    label_at(basis.from_rows, after.end) - label_at(basis.from_rows, before.end)
}

/// The length of these arcs. Those that aren't there are 0 long.
pub(crate) fn whole_length(star: &Star, arcs: &[u64]) -> u128
    ensures value { result ≡ walk_length star.now arcs.now }
    ensures low { result < 2 ^ 96 }
{
    let mut sum = 0u128;
    for a in arcs {
        sum += length_of(star, *a) as u128;
    }
    sum
}

/// Whether the rank is that of the length, the shared length and the plateau.
pub(crate) fn is_rank(r: &CertRoute) -> bool
    ensures { IsTrue result ↔ (r.now.rank ≡ rank_of r.now.length r.now.shared r.now.plateau) }
{
    let whole = 2 * r.length as u128 + r.shared as u128;
    r.rank as u128 == whole.saturating_sub(r.plateau as u128)
}

/// Whether the numbers of a route are those of its path.
///
/// It takes 16 bytes an arc, and the time of a sort of the path and of looking each arc up in the optimum and in the rows.
pub(crate) fn are_numbers(alloc: Global, basis: &Basis, r: &CertRoute) -> Result<bool, NoMemory>
    requires near { IsNear basis.now r.now.via }
    requires own { IsOwnPath basis.now r.now }
    ensures { IfOk result (λ are. IsTrue are ↔ AreNumbers basis.now r.now) }
{
    let arcs = r.arcs.as_slice();
    if r.length as u128 != whole_length(basis.star, arcs) {
        return Ok(false);
    }
    if r.shared as u128 != shared_length(alloc, basis.star, basis.optimum, arcs)? {
        return Ok(false);
    }
    if r.plateau != spread_of(basis, r) {
        return Ok(false);
    }
    Ok(is_rank(r))
}
