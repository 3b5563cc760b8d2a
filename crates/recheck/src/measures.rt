//! Comparisons with ratios, and shared lengths, of paths of any length.

ghost use Rattle.std.specs.Prelude.{◌≡◌, ◌<◌, ◌≤◌, ◌*◌, ◌^◌, ◌↔◌, ◌==◌, IsTrue, IfOk, IsPermutation, if◌then◌else◌};
ghost use Rattle.std.specs.List.{list_any};
ghost use Rattle.std.specs.List.Sorted.{IsNonDecreasing};
ghost use Rattle.road_model.specs.Fraction.{Allows, IsAbove, IsBelow, Stretches, Exceeds};
ghost use Rattle.road_model.specs.Graph.{length_at};
ghost use Rattle.road_model.specs.Tests.{shared};

use crate::arcs::length_of;
use forward_star::Star;
use road_model::{NoMemory, Ratio};
use std::alloc::Global;

/// A length times a number of a ratio, or the sum of both.
pub(crate) fn scaled(length: u128, factor: u64) -> u128
    requires length { length < 2 ^ 100 }
    requires factor { factor ≤ 8000000 }
    ensures { result ≡ length * factor }
{
    length * factor as u128
}

/// `part` is at most this ratio of `whole`.
pub(crate) fn allows_wide(ratio: &Ratio, part: u128, whole: u64) -> bool
    requires { part < 2 ^ 100 }
    ensures { IsTrue result ↔ Allows ratio.now part whole }
{
    scaled(part, ratio.den()) <= scaled(whole as u128, ratio.num())
}

/// `part` is above this ratio of `whole`.
pub(crate) fn above_wide(ratio: &Ratio, part: u128, whole: u64) -> bool
    requires { part < 2 ^ 100 }
    ensures { IsTrue result ↔ IsAbove ratio.now part whole }
{
    scaled(part, ratio.den()) > scaled(whole as u128, ratio.num())
}

/// `part` is below this ratio of `whole`.
pub(crate) fn below_wide(ratio: &Ratio, part: u128, whole: u64) -> bool
    requires { part < 2 ^ 100 }
    ensures { IsTrue result ↔ IsBelow ratio.now part whole }
{
    scaled(part, ratio.den()) < scaled(whole as u128, ratio.num())
}

/// `part` is at most `whole` and this ratio of `whole` more.
pub(crate) fn stretches_wide(ratio: &Ratio, part: u128, whole: u64) -> bool
    requires { part < 2 ^ 100 }
    ensures { IsTrue result ↔ Stretches ratio.now part whole }
{
    scaled(part, ratio.den()) <= scaled(whole as u128, ratio.den() + ratio.num())
}

/// `part` is above `whole` and this ratio of `whole` more.
pub(crate) fn exceeds_wide(ratio: &Ratio, part: u128, whole: u128) -> bool
    requires part { part < 2 ^ 100 }
    requires whole { whole < 2 ^ 100 }
    ensures { IsTrue result ↔ Exceeds ratio.now part whole }
{
    scaled(part, ratio.den()) > scaled(whole, ratio.den() + ratio.num())
}

// The numbers of these arcs, ascending.
fn ascending(alloc: Global, arcs: &[u64]) -> Result<Vec<u64>, NoMemory>
    ensures permutation { IfOk result (λ ns. IsPermutation arcs.now ns.items) }
    ensures order { IfOk result (λ ns. IsNonDecreasing ns.items) }
{
    let mut numbers = Vec::from_slice(alloc, arcs)?;
    numbers.sort()?;
    Ok(numbers)
}

// What an arc of the optimum adds: its length, if it is one of these.
fn weight(star: &Star, ascending: &[u64], arc: u64) -> u64
    requires { IsNonDecreasing ascending.now }
    ensures value { result ≡ (if list_any (λ b. b == arc) ascending.now then length_at star.now arc else 0) }
    ensures short { result < 2 ^ 32 }
{
    match ascending.binary_search(&arc) {
        Ok(_place) => length_of(star, arc),
        Err(_place) => 0,
    }
}

// The length of those arcs of the optimum that are among these.
fn shared_with(star: &Star, optimum: &[u64], ascending: &[u64]) -> u128
    requires { IsNonDecreasing ascending.now }
    ensures value { result ≡ shared star.now optimum.now ascending.now }
    ensures low { result < 2 ^ 96 }
{
    let mut sum = 0u128;
    for a in optimum {
        sum += weight(star, ascending, *a) as u128;
    }
    sum
}

/// The length of those arcs of the optimum that occur in a path. Arcs that aren't there are 0 long.
///
/// It sorts the path, in 16 bytes an arc, and looks each arc of the optimum up by halves.
pub(crate) fn shared_length(
    alloc: Global,
    star: &Star,
    optimum: &[u64],
    path: &[u64],
) -> Result<u128, NoMemory>
    ensures value { IfOk result (λ n. n ≡ shared star.now optimum.now path.now) }
    ensures low { IfOk result (λ n. n < 2 ^ 96) }
{
    let ascending = ascending(alloc, path)?;
    Ok(shared_with(star, optimum, &ascending))
}
