//! Pairs of places round a via, as a rectangle of first places by last ones. The pair of the least first and the
//! greatest last place is its outermost one: no other pair has a greater excess over the distance of its ends.

ghost use Rattle.std.specs.Prelude.{◌≡◌, ◌<◌, ◌≤◌, ◌+◌, ◌-◌, ◌*◌, ◌^◌, ◌↔◌, IsTrue, IsSomeAnd, IfOk, false};
ghost use Rattle.std.specs.Bool.{OnTrue};
ghost use Rattle.road_model.specs.Fraction.{Stretches, Exceeds};
ghost use Rattle.road_model.specs.Places.{IsDistAt};
ghost use Rattle.road_model.specs.Tests.{FailsStretch};
ghost use Rattle.road_model.specs.ViaWalk.{AsksWithin};
ghost use Rattle.path_tests.specs.JoinedTrail.{IsJoinedTrail};
ghost use Rattle.path_tests.specs.Rectangle.{IsRectangle, AreHalves, FindsIn, TellsPassingIn, IsLesserOf};
ghost use Rattle.path_tests.specs.Rectangle.{pairs_in, spread_of};

use crate::places::{distance_between, length_between};
use road_model::{NoMemory, Oracle, Pair, Ratio, Trail};

/// The pairs of a first place from `low` to before `high` and a last place from `from` up to `to`.
#[derive(Clone, Copy)]
pub struct Rectangle {
    pub low: u32,
    pub high: u32,
    pub from: u32,
    pub to: u32,
}

/// The two halves of a rectangle, of which the outer one has its outermost pair.
#[derive(Clone, Copy)]
pub struct Halves {
    pub outer: Rectangle,
    pub inner: Rectangle,
}

// Halves the first places, where there are as many as last ones at least, or the last places.
fn halved(area: Rectangle) -> Halves
    requires rows { area.low < area.high }
    requires columns { area.from ≤ area.to }
    requires several { 1 < spread_of area }
    ensures { AreHalves area result }
{
    if area.high - area.low > area.to - area.from {
        let middle = area.low + (area.high - area.low) / 2;
        return Halves {
            outer: Rectangle {
                high: middle,
                ..area
            },
            inner: Rectangle {
                low: middle,
                ..area
            },
        };
    }
    let middle = area.from + (area.to - area.from) / 2;
    Halves {
        outer: Rectangle {
            from: middle + 1,
            ..area
        },
        inner: Rectangle { to: middle, ..area },
    }
}

// Whether there is one pair alone.
fn is_pair(area: Rectangle) -> bool
    requires rows { area.low < area.high }
    requires columns { area.from ≤ area.to }
    requires fits { spread_of area < 2 ^ 32 }
    ensures { IsTrue result ↔ (spread_of area ≡ 1) }
{
    area.high - area.low + (area.to - area.from) == 1
}

// Whether the excess of an outer subpath over the distance of its ends is small enough for each subpath that is as
// long as the inner one at least.
fn clears(epsilon: &Ratio, outer: u64, distance: u64, inner: u64) -> bool
    requires { distance ≤ outer }
    ensures low { OnTrue result (outer - distance ≤ inner) }
    ensures cleared { OnTrue result (Stretches epsilon.now inner (inner - (outer - distance))) }
    ensures exact { inner ≡ outer → result ≡ false → Exceeds epsilon.now outer distance }
{
    let excess = outer - distance;
    if excess > inner {
        return false;
    }
    epsilon.stretches(inner, inner - excess)
}

// Of two pairs that may be there, the one with the lesser first place, or with the same and the lesser last place.
fn lesser(a: Option<Pair>, b: Option<Pair>) -> Option<Pair>
    ensures { IsLesserOf a b result }
{
    let Some(one) = a else {
        return b;
    };
    let Some(other) = b else {
        return a;
    };
    if one.first < other.first {
        return a;
    }
    if other.first < one.first {
        return b;
    }
    if one.last <= other.last { a } else { b }
}

// Whether a pair was found that begins before a place.
fn begins_before(found: Option<Pair>, place: u32) -> bool
    ensures { OnTrue result (IsSomeAnd found (λ pair. pair.first < place)) }
{
    match found {
        Some(pair) => pair.first < place,
        None => false,
    }
}

/// The least pair of a rectangle that is stretched too far, given the distance of its outermost pair.
///
/// Of two halves one has the same outermost pair, so only the other one asks for its own.
pub fn least_in<O: Oracle>(
    oracle: &mut O,
    trail: &Trail,
    via_at: u32,
    epsilon: &Ratio,
    area: Rectangle,
    distance: u64,
) -> Result<Option<Pair>, NoMemory>
    requires joined { IsJoinedTrail (O.graph oracle.old) trail.now via_at }
    requires area { IsRectangle trail.now via_at area }
    requires outer { IsDistAt (O.graph oracle.old) trail.now area.low area.to distance }
    ensures found { IfOk result (FindsIn (FailsStretch (O.graph oracle.old) epsilon.now trail.now) area) }
    ensures same { O.graph oracle.new ≡ O.graph oracle.old }
    ensures asks { AsksWithin (O.asked oracle.old) (O.asked oracle.new) (pairs_in area - 1) }
{
    let outer = length_between(trail, area.low, area.to);
    let inner = length_between(trail, area.high - 1, area.from);
    if clears(epsilon, outer, distance, inner) {
        return Ok(None);
    }
    if is_pair(area) {
        return Ok(Some(Pair {
            first: area.low,
            last: area.to,
            distance,
        }));
    }
    let halves = halved(area);
    let found = least_in(oracle, trail, via_at, epsilon, halves.outer, distance)?;
    if begins_before(found, halves.inner.low) {
        return Ok(found);
    }
    let next = distance_between(oracle, trail, halves.inner.low, halves.inner.to)?;
    let other = least_in(oracle, trail, via_at, epsilon, halves.inner, next)?;
    Ok(lesser(found, other))
}

/// Whether no pair of a rectangle is stretched too far, given the distance of its outermost pair. It ends at the
/// first pair that is.
pub fn passes_in<O: Oracle>(
    oracle: &mut O,
    trail: &Trail,
    via_at: u32,
    epsilon: &Ratio,
    area: Rectangle,
    distance: u64,
) -> Result<bool, NoMemory>
    requires joined { IsJoinedTrail (O.graph oracle.old) trail.now via_at }
    requires area { IsRectangle trail.now via_at area }
    requires outer { IsDistAt (O.graph oracle.old) trail.now area.low area.to distance }
    ensures passes { IfOk result (TellsPassingIn (FailsStretch (O.graph oracle.old) epsilon.now trail.now) area) }
    ensures same { O.graph oracle.new ≡ O.graph oracle.old }
    ensures asks { AsksWithin (O.asked oracle.old) (O.asked oracle.new) (pairs_in area - 1) }
{
    let outer = length_between(trail, area.low, area.to);
    let inner = length_between(trail, area.high - 1, area.from);
    if clears(epsilon, outer, distance, inner) {
        return Ok(true);
    }
    if is_pair(area) {
        return Ok(false);
    }
    let halves = halved(area);
    let passes = passes_in(oracle, trail, via_at, epsilon, halves.outer, distance)?;
    if !passes {
        return Ok(false);
    }
    let next = distance_between(oracle, trail, halves.inner.low, halves.inner.to)?;
    let passes = passes_in(oracle, trail, via_at, epsilon, halves.inner, next)?;
    Ok(passes)
}
