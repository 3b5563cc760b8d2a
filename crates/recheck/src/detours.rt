//! Detours: walks between two places of a path.

ghost use Rattle.std.specs.Prelude.{◌≡◌, ◌<◌, ◌≤◌, ◌^◌, ◌↔◌, length, IsTrue};
ghost use Rattle.road_model.specs.Places.{between};
ghost use Rattle.road_model.specs.Tests.{IsTested};
ghost use Rattle.road_model.specs.Walk.{IsWalk, walk_length};
ghost use Rattle.recheck.specs.Paths.{trail};
ghost use Rattle.recheck.specs.Reasons.{IsDetour, IsOverStretched, IsShorter};

use crate::arcs::{find_arc, length_of};
use crate::basis::Basis;
use crate::measures::{allows_wide, below_wide, exceeds_wide};
use crate::places::PathPlaces;
use forward_star::Star;
use road_model::Ratio;

/// Whether arcs lead from a vertex to another, each from where the one before it ends.
pub(crate) fn is_walk(star: &Star, from: u64, arcs: &[u64], to: u64) -> bool
    ensures { IsTrue result ↔ IsWalk star.now from arcs.now to }
{
    star.within_limits();
    let mut at = from;
    for a in arcs {
        let Some(row) = find_arc(star, *a) else {
            return false;
        };
        if row.tail.number() as u64 != at {
            return false;
        }
        at = row.head.number() as u64;
    }
    at == to
}

/// The length of these arcs. Those that aren't there are 0 long.
pub(crate) fn length_along(star: &Star, arcs: &[u64]) -> u128
    ensures value { result ≡ walk_length star.now arcs.now }
    ensures low { result < 2 ^ 96 }
{
    let mut sum = 0u128;
    for a in arcs {
        sum += length_of(star, *a) as u128;
    }
    sum
}

/// Whether the subpath between two places has to be shortest, where this is the optimum's length.
pub(crate) fn is_tested(
    places: &PathPlaces,
    alpha: &Ratio,
    best: u64,
    first: usize,
    last: usize,
) -> bool
    requires rise { first < last }
    requires inside { last < length places.now.sums }
    ensures { IsTrue result ↔ IsTested alpha.now best places.now first last }
{
    if allows_wide(alpha, places.between(first, last), best) {
        return true;
    }
    last - first >= 2 && below_wide(alpha, places.between(first + 1, last - 1), best)
}

/// Whether arcs lead from a place of a path to a later one. Time: linear in them.
pub(crate) fn is_detour(
    basis: &Basis,
    path: &[u64],
    places: &PathPlaces,
    first: u64,
    last: u64,
    detour: &[u64],
) -> bool
    requires { places.now ≡ trail basis.now path.now }
    ensures { IsTrue result ↔ IsDetour basis.now path.now first last detour.now }
{
    if first >= last || last > path.len() as u64 {
        return false;
    }
    let start = places.vertex(first as usize);
    let end = places.vertex(last as usize);
    is_walk(basis.star, start, detour, end)
}

/// Whether a detour is shorter than the subpath between its places, which has to be shortest.
pub(crate) fn is_shorter(
    basis: &Basis,
    path: &[u64],
    places: &PathPlaces,
    first: u64,
    last: u64,
    detour: &[u64],
) -> bool
    requires { places.now ≡ trail basis.now path.now }
    ensures { IsTrue result ↔ IsShorter basis.now path.now first last detour.now }
{
    if !is_detour(basis, path, places, first, last, detour) {
        return false;
    }
    let start = first as usize;
    let end = last as usize;
    is_tested(places, &basis.query.alpha, basis.best, start, end)
        && length_along(basis.star, detour) < places.between(start, end)
}

/// Whether the subpath between a detour's places is stretched too far against it.
pub(crate) fn is_over_stretched(
    basis: &Basis,
    path: &[u64],
    places: &PathPlaces,
    first: u64,
    last: u64,
    detour: &[u64],
) -> bool
    requires { places.now ≡ trail basis.now path.now }
    ensures { IsTrue result ↔ IsOverStretched basis.now path.now first last detour.now }
{
    if !is_detour(basis, path, places, first, last, detour) {
        return false;
    }
    let long = places.between(first as usize, last as usize);
    exceeds_wide(&basis.query.epsilon, long, length_along(basis.star, detour))
}
