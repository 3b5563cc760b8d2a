//! Whole plateaus, along their links.

ghost use Rattle.std.specs.Prelude.{◌≡◌, ◌<◌, ◌≤◌, ◌⊎◌, ◌↔◌, ◌^◌, Some, None, IsTrue};
ghost use Rattle.tree_search.specs.Ball.{IsWithin};
ghost use Rattle.road_model.specs.Dist.{IsDist};
ghost use Rattle.plateau_finder.specs.Plateaus.{IsInBoth};
ghost use Rattle.plateau_finder.specs.Links.{IsPrevious, IsChainFrom, IsChainBack, StartsAt};

use crate::links::{next_of, previous_of};
use crate::plateau::Plateau;
use canonical_trees::TreePair;
use road_model::Vertex;

fn lesser(a: Vertex, b: Vertex) -> Vertex
    ensures first { result ≤ a }
    ensures second { result ≤ b }
    ensures one { (result ≡ a) ⊎ (result ≡ b) }
{
    if b.number() < a.number() { b } else { a }
}

/// The distance from the source.
fn near_of(pair: &TreePair<'_>, v: Vertex) -> u64
    requires { IsInBoth pair.now v }
    ensures is { IsDist pair.now.graph pair.now.source v (Some result) }
    ensures short { result < 2 ^ 57 }
{
    let Some(near) = pair.from_label(v) else {
        unreachable!()
    };
    near
}

/// The distance to the target.
fn left_of(pair: &TreePair<'_>, v: Vertex) -> u64
    requires { IsInBoth pair.now v }
    ensures { IsDist pair.now.graph v pair.now.target (Some result) }
{
    let Some(left) = pair.to_label(v) else {
        unreachable!()
    };
    left
}

/// The plateau that begins at `first`.
pub(crate) fn plateau_from(pair: &TreePair<'_>, first: Vertex) -> Plateau
    requires inside { IsInBoth pair.now first }
    requires begins { IsPrevious pair.now first None }
    ensures first { result.first ≡ first }
    ensures chain { IsChainFrom pair.now result }
{
    pair.star().within_limits();
    let mut last = first;
    let mut least = first;
    let mut left = left_of(pair, first);
    while let Some(next) = next_of(pair, last) {
        last = next;
        least = lesser(least, next);
        left = left_of(pair, next);
    }
    Plateau {
        first,
        last,
        least,
        length: near_of(pair, last) - near_of(pair, first),
    }
}

/// A length is within a bound, if there is one.
fn is_within(bound: Option<u64>, length: u64) -> bool
    ensures { IsTrue result ↔ IsWithin bound length }
{
    match bound {
        Some(most) => length <= most,
        None => true,
    }
}

/// The plateau that begins at `v`, if one does whose walk is within the bound.
pub(crate) fn plateau_at(pair: &TreePair<'_>, v: Vertex, bound: Option<u64>) -> Option<Plateau>
    ensures { StartsAt pair.now bound v result }
{
    pair.star().within_limits();
    let _source = pair.source();
    let Some(near) = pair.from_label(v) else {
        return None;
    };
    let Some(left) = pair.to_label(v) else {
        return None;
    };
    if !is_within(bound, near + left) {
        return None;
    }
    if let Some(_previous) = previous_of(pair, v) {
        return None;
    }
    Some(plateau_from(pair, v))
}

/// The first vertex of the plateau of `v`.
pub(crate) fn first_of(pair: &TreePair<'_>, v: Vertex) -> Vertex
    requires { IsInBoth pair.now v }
    ensures { IsChainBack pair.now v result }
{
    pair.star().within_limits();
    let mut first = v;
    let mut near = near_of(pair, v);
    while let Some(previous) = previous_of(pair, first) {
        first = previous;
        near = near_of(pair, previous);
    }
    first
}
