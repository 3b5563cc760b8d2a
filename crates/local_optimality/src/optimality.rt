ghost use Rattle.std.specs.Prelude.{◌≡◌, ◌<◌, ◌≤◌, ◌+◌, ◌-◌, ◌*◌, length, IfOk, IfSome};
ghost use Rattle.road_model.specs.Tests.{FailsLocal};
ghost use Rattle.road_model.specs.ViaWalk.{IsViaWalk, FindsLeast, AsksWithin};
ghost use Rattle.path_tests.specs.JoinedTrail.{IsJoinedTrail};
ghost use Rattle.path_tests.specs.Passing.{TellsPassing};
ghost use Rattle.local_optimality.specs.Detour.{FindsFailingStart};

use crate::detours::{detour_to, least_end};
use crate::tested::{first_round, last_tested};
use road_model::{NoMemory, Oracle, Pair, Ratio, Trail};

/// The pair of places whose subpath is tested and is no shortest walk, with the least first, and of those the
/// least last place; none where the walk is locally optimal. `opt_len` is the length of the optimum.
///
/// It asks at most as many questions as there are arcs before the via, and as the walk has places. One question
/// clears a range of first places, which is doubled after each that does and halved after each that doesn't; where
/// one first place fails, its ends are halved. Beside them each question takes time linear in the places.
pub fn local<O: Oracle>(
    oracle: &mut O,
    trail: &Trail,
    via_at: u32,
    alpha: &Ratio,
    opt_len: u64,
) -> Result<Option<Pair>, NoMemory>
    requires { IsViaWalk (O.graph oracle.old) trail.now via_at }
    ensures found { IfOk result
        (FindsLeast (FailsLocal (O.graph oracle.old) alpha.now opt_len trail.now)) }
    ensures same { O.graph oracle.new ≡ O.graph oracle.old }
    ensures asks { AsksWithin (O.asked oracle.old) (O.asked oracle.new)
        (via_at + length trail.now.vertices) }
{
    let Some(failing) = failing_start(oracle, trail, via_at, alpha, opt_len)? else {
        return Ok(None);
    };
    let pair = least_end(
        oracle,
        trail,
        via_at,
        failing.first,
        failing.last,
        failing.distance,
    )?;
    Ok(Some(pair))
}

/// Whether the walk is locally optimal: true where no pair fails that [`local`] looks for, false where one does.
///
/// It asks what `local` asks, but for the least end of a failing subpath.
pub fn is_local<O: Oracle>(
    oracle: &mut O,
    trail: &Trail,
    via_at: u32,
    alpha: &Ratio,
    opt_len: u64,
) -> Result<bool, NoMemory>
    requires { IsViaWalk (O.graph oracle.old) trail.now via_at }
    ensures passes { IfOk result
        (TellsPassing (FailsLocal (O.graph oracle.old) alpha.now opt_len trail.now)) }
    ensures same { O.graph oracle.new ≡ O.graph oracle.old }
    ensures asks { AsksWithin (O.asked oracle.old) (O.asked oracle.new)
        (via_at + length trail.now.vertices) }
{
    let Some(_failing) = failing_start(oracle, trail, via_at, alpha, opt_len)? else {
        return Ok(true);
    };
    Ok(false)
}

// The least first place with a failing subpath, and the last of its tested subpaths, which fails if any does.
fn failing_start<O: Oracle>(
    oracle: &mut O,
    trail: &Trail,
    via_at: u32,
    alpha: &Ratio,
    opt_len: u64,
) -> Result<Option<Pair>, NoMemory>
    requires { IsJoinedTrail (O.graph oracle.old) trail.now via_at }
    ensures found { IfOk result
        (FindsFailingStart (O.graph oracle.old) alpha.now opt_len trail.now via_at) }
    ensures same { O.graph oracle.new ≡ O.graph oracle.old }
    ensures asks { AsksWithin (O.asked oracle.old) (O.asked oracle.new) (2 * via_at) }
    ensures asks_before { IfOk result (λ found. IfSome found (λ pair.
        AsksWithin (O.asked oracle.old) (O.asked oracle.new) (2 * pair.first + 1))) }
{
    let mut first = first_round(trail, via_at, alpha, opt_len);
    let mut width = 1u32;
    'rounds: while first < via_at {
        let end = end_of(first, width, via_at);
        let last = last_tested(trail, via_at, alpha, opt_len, end - 1, via_at);
        match detour_to(oracle, trail, via_at, first, last)? {
            None => {
                width = doubled(end - first);
                first = end;
            }
            Some(distance) => {
                if end - first == 1 {
                    return Ok(Some(Pair {
                        first,
                        last,
                        distance,
                    }));
                }
                width = (end - first) / 2;
            }
        }
    }
    Ok(None)
}

// The end of a range of places from `first`, so wide, but for the via.
fn end_of(first: u32, width: u32, via_at: u32) -> u32
    requires before { first < via_at }
    requires some { 1 ≤ width }
    ensures onward { first < result }
    ensures within { result ≤ via_at }
    ensures narrow { result - first ≤ width }
{
    if via_at - first <= width {
        via_at
    } else {
        first + width
    }
}

// Twice as wide, where that fits.
fn doubled(width: u32) -> u32
    requires { 1 ≤ width }
    ensures some { 1 ≤ result }
    ensures double { result ≤ 2 * width }
{
    if width < 2147483648 { width * 2 } else { width }
}
