ghost use Rattle.std.specs.Prelude.{◌≡◌, ◌<◌, ◌≤◌, ◌+◌, ◌-◌, ◌*◌, ◌^◌, length, IfOk};
ghost use Rattle.road_model.specs.Tests.{FailsStretch};
ghost use Rattle.road_model.specs.ViaWalk.{IsViaWalk, FindsLeast, AsksWithin};
ghost use Rattle.path_tests.specs.JoinedTrail.{IsJoinedTrail};
ghost use Rattle.path_tests.specs.Passing.{TellsPassing};
ghost use Rattle.path_tests.specs.Rectangle.{IsWholeRectangle};

use crate::places::distance_between;
use crate::rectangles::{Rectangle, least_in, passes_in};
use road_model::{NoMemory, Oracle, Pair, Ratio, Trail};

/// The pair of places whose subpath is stretched too far, with the least first, and of those the least last
/// place; none where no subpath is. A subpath that ends where it begins is stretched too far.
///
/// Only pairs round the via can be. One question clears a whole rectangle of first and last places, or it is halved:
/// at most as many questions as the arcs before the via times the arcs after it.
pub fn stretch<O: Oracle>(
    oracle: &mut O,
    trail: &Trail,
    via_at: u32,
    epsilon: &Ratio,
) -> Result<Option<Pair>, NoMemory>
    requires { IsViaWalk (O.graph oracle.old) trail.now via_at }
    ensures found { IfOk result (FindsLeast (FailsStretch (O.graph oracle.old) epsilon.now trail.now)) }
    ensures same { O.graph oracle.new ≡ O.graph oracle.old }
    ensures asks { AsksWithin (O.asked oracle.old) (O.asked oracle.new)
        (via_at * (length trail.now.vertices - 1 - via_at)) }
{
    let Some(whole) = whole_rectangle(trail, via_at) else {
        return Ok(None);
    };
    let distance = distance_between(oracle, trail, whole.low, whole.to)?;
    let found = least_in(oracle, trail, via_at, epsilon, whole, distance)?;
    Ok(found)
}

/// Whether no subpath is stretched too far: true where no pair fails that [`stretch`] looks for, false where one
/// does.
///
/// It asks at most what `stretch` asks, and ends at the first pair that fails.
pub fn is_stretch_bounded<O: Oracle>(
    oracle: &mut O,
    trail: &Trail,
    via_at: u32,
    epsilon: &Ratio,
) -> Result<bool, NoMemory>
    requires { IsViaWalk (O.graph oracle.old) trail.now via_at }
    ensures passes { IfOk result (TellsPassing (FailsStretch (O.graph oracle.old) epsilon.now trail.now)) }
    ensures same { O.graph oracle.new ≡ O.graph oracle.old }
    ensures asks { AsksWithin (O.asked oracle.old) (O.asked oracle.new)
        (via_at * (length trail.now.vertices - 1 - via_at)) }
{
    let Some(whole) = whole_rectangle(trail, via_at) else {
        return Ok(true);
    };
    let distance = distance_between(oracle, trail, whole.low, whole.to)?;
    let passes = passes_in(oracle, trail, via_at, epsilon, whole, distance)?;
    Ok(passes)
}

// The rectangle of all pairs round the via, where there are any.
fn whole_rectangle(trail: &Trail, via_at: u32) -> Option<Rectangle>
    requires few { length trail.now.vertices < 2 ^ 32 }
    requires inside { via_at < length trail.now.vertices }
    ensures { IsWholeRectangle trail.now via_at result }
{
    let places = trail.vertices.len() as u32;
    if via_at == 0 {
        return None;
    }
    if via_at + 1 == places {
        return None;
    }
    Some(Rectangle {
        low: 0,
        high: via_at,
        from: via_at + 1,
        to: places - 1,
    })
}
