//! The checks on the subpaths of a route across its vertex.

ghost use Rattle.std.specs.Prelude.{◌≡◌, ◌<◌, ◌≤◌, ◌+◌, ◌^◌, ◌↔◌, length, IsTrue};
ghost use Rattle.road_model.specs.Tests.{IsTested};
ghost use Rattle.recheck.specs.Rows.{HasLabel};
ghost use Rattle.recheck.specs.Paths.{IsThrough, trail};
ghost use Rattle.recheck.specs.Routes.{IsCovered, IsLocal, IsUnstretched};
ghost use Rattle.recheck.specs.Standing.{IsRising};
ghost use Rattle.recheck.specs.Across.{IsSplit, IsMeasured, EachBefore, EachAfter, IsCoveredAt, IsLocalAt, HasLabelFor, IsLowAt};

use crate::basis::Basis;
use crate::blocks_at::{block_from, rows_from};
use crate::measures::{allows_wide, below_wide, stretches_wide};
use crate::places::PathPlaces;
use crate::rows::find_row;
use certificate_text::{BlockRow, CertRoute};
use road_model::Ratio;

// The place of the route's vertex in its path.
fn via_place(basis: &Basis, r: &CertRoute, places: &PathPlaces) -> usize
    requires path { places.now ≡ trail basis.now r.now.arcs }
    requires through { IsThrough basis.now r.now.via r.now.arcs }
    ensures split { IsSplit basis.now r.now places.now result }
    ensures measured { IsMeasured places.now }
{
    // The basis keeps that its rows lead to the source: so one place alone has the vertex.
    let _ = &basis.query;
    for place in 0..places.count() {
        if places.vertex(place) == r.via {
            return place;
        }
    }
    unreachable!()
}

// Whether the subpath between two places has to be shortest.
fn is_tested(basis: &Basis, places: &PathPlaces, first: usize, last: usize) -> bool
    requires measured { IsMeasured places.now }
    requires apart { first + 2 ≤ last }
    requires inside { last < length places.now.vertices }
    ensures { IsTrue result ↔ IsTested basis.now.query.alpha basis.now.best places.now first last }
{
    let alpha = basis.query.alpha;
    allows_wide(&alpha, places.between(first, last), basis.best)
        || below_wide(&alpha, places.between(first + 1, last - 1), basis.best)
}

fn has_label(rows: &[BlockRow], vertex: u64, label: u128) -> bool
    requires { IsRising rows.now }
    ensures { IsTrue result ↔ HasLabel rows.now vertex label }
{
    match find_row(rows, vertex) {
        Some(row) => row.label as u128 == label,
        None => false,
    }
}

// Whether a length is at most the ratio more than the label of a vertex.
fn has_label_for(ratio: &Ratio, rows: &[BlockRow], vertex: u64, length: u128) -> bool
    requires rising { IsRising rows.now }
    requires low { length < 2 ^ 100 }
    ensures { IsTrue result ↔ HasLabelFor ratio.now rows.now vertex length }
{
    match find_row(rows, vertex) {
        Some(row) => stretches_wide(ratio, length, row.label),
        None => false,
    }
}

// Whether a block from the vertex at a place reaches to the path's end.
fn is_covered_at(basis: &Basis, places: &PathPlaces, first: usize) -> bool
    requires measured { IsMeasured places.now }
    requires inside { first < length places.now.vertices }
    ensures { IsTrue result ↔ IsCoveredAt basis.now places.now first }
{
    let length = places.between(first, places.count() - 1);
    match block_from(basis, places.vertex(first)) {
        Some(block) => match block.radius {
            Some(radius) => length <= radius as u128,
            None => true,
        },
        None => false,
    }
}

// Whether each subpath from a place to one after the via is as long as the label of its end, where it has to be
// shortest. A subpath on from one that doesn't have to be doesn't have to be either.
fn is_local_at(basis: &Basis, places: &PathPlaces, via_at: usize, first: usize) -> bool
    requires measured { IsMeasured places.now }
    requires before { first < via_at }
    requires inside { via_at < length places.now.vertices }
    ensures { IsTrue result ↔ EachAfter via_at (length places.now.vertices) (IsLocalAt basis.now places.now first) }
{
    let count = places.count();
    let rows = rows_from(basis, places.vertex(first));
    for last in via_at + 1..count {
        if !is_tested(basis, places, first, last) {
            return true;
        }
        if !has_label(rows, places.vertex(last), places.between(first, last)) {
            return false;
        }
    }
    true
}

// Whether each subpath from a place to one after the via is at most the limit longer than the label of its end.
fn is_unstretched_at(basis: &Basis, places: &PathPlaces, via_at: usize, first: usize) -> bool
    requires measured { IsMeasured places.now }
    requires before { first < via_at }
    requires inside { via_at < length places.now.vertices }
    ensures { IsTrue result ↔ EachAfter via_at (length places.now.vertices) (IsLowAt basis.now places.now first) }
{
    let epsilon = basis.query.epsilon;
    let count = places.count();
    let rows = rows_from(basis, places.vertex(first));
    for last in via_at + 1..count {
        let length = places.between(first, last);
        if !has_label_for(&epsilon, rows, places.vertex(last), length) {
            return false;
        }
    }
    true
}

/// Whether each place of a route's path before its vertex has a block that reaches to the path's end.
///
/// It looks a block up for each of these places.
pub(crate) fn is_covered(basis: &Basis, r: &CertRoute, places: &PathPlaces) -> bool
    requires path { places.now ≡ trail basis.now r.now.arcs }
    requires through { IsThrough basis.now r.now.via r.now.arcs }
    ensures { IsTrue result ↔ IsCovered basis.now r.now }
{
    let via_at = via_place(basis, r, places);
    for first in 0..via_at {
        if !is_covered_at(basis, places, first) {
            return false;
        }
    }
    true
}

/// Whether each subpath across a route's vertex that has to be shortest is as long as the label of its end.
///
/// It looks a block up for each place before the vertex, and in it the places after the vertex until one needs no test:
/// the logarithm of the block's rows each.
pub(crate) fn is_local(basis: &Basis, r: &CertRoute, places: &PathPlaces) -> bool
    requires path { places.now ≡ trail basis.now r.now.arcs }
    requires through { IsThrough basis.now r.now.via r.now.arcs }
    ensures { IsTrue result ↔ IsLocal basis.now r.now }
{
    let via_at = via_place(basis, r, places);
    for first in 0..via_at {
        if !is_local_at(basis, places, via_at, first) {
            return false;
        }
    }
    true
}

/// Whether each subpath across a route's vertex is at most the limit longer than the label of its end.
///
/// It looks a block up for each place before the vertex, and in it each place after the vertex: the logarithm of the
/// block's rows each.
pub(crate) fn is_unstretched(basis: &Basis, r: &CertRoute, places: &PathPlaces) -> bool
    requires path { places.now ≡ trail basis.now r.now.arcs }
    requires through { IsThrough basis.now r.now.via r.now.arcs }
    ensures { IsTrue result ↔ IsUnstretched basis.now r.now }
{
    let via_at = via_place(basis, r, places);
    for first in 0..via_at {
        if !is_unstretched_at(basis, places, via_at, first) {
            return false;
        }
    }
    true
}
