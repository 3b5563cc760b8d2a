ghost use Rattle.std.specs.Prelude.{◌≡◌, ◌<◌, ◌≤◌, ◌+◌, ◌-◌, length, IfOk};
ghost use Rattle.path_tests.specs.JoinedTrail.{IsJoinedTrail};
ghost use Rattle.local_optimality.specs.Detour.{IsDetour, TellsDetour, FindsDetour};
ghost use Rattle.road_model.specs.ViaWalk.{AsksWithin};

use path_tests::{distance_between, length_between};
use road_model::{NoMemory, Oracle, Pair, Trail};

// The distance between the ends of a subpath, where the subpath is a detour; none where it is as long as that,
// and with it each subpath of it. One that ends at the via isn't asked.
pub fn detour_to<O: Oracle>(
    oracle: &mut O,
    trail: &Trail,
    via_at: u32,
    first: u32,
    reach: u32,
) -> Result<Option<u64>, NoMemory>
    requires joined { IsJoinedTrail (O.graph oracle.old) trail.now via_at }
    requires before { first < via_at }
    requires beyond { via_at ≤ reach }
    requires inside { reach < length trail.now.vertices }
    ensures found { IfOk result (TellsDetour (O.graph oracle.old) trail.now first reach) }
    ensures same { O.graph oracle.new ≡ O.graph oracle.old }
    ensures asks { AsksWithin (O.asked oracle.old) (O.asked oracle.new) 1 }
{
    if reach == via_at {
        return Ok(None);
    }
    let distance = distance_between(oracle, trail, first, reach)?;
    if distance == length_between(trail, first, reach) {
        return Ok(None);
    }
    Ok(Some(distance))
}

// The end of the first detour, where the subpath up to `reach` is one. The range of ends is halved: up to `clear`
// there is none, at `last` there is one.
pub fn least_end<O: Oracle>(
    oracle: &mut O,
    trail: &Trail,
    via_at: u32,
    first: u32,
    reach: u32,
    distance: u64,
) -> Result<Pair, NoMemory>
    requires joined { IsJoinedTrail (O.graph oracle.old) trail.now via_at }
    requires before { first < via_at }
    requires beyond { via_at < reach }
    requires inside { reach < length trail.now.vertices }
    requires detour { IsDetour (O.graph oracle.old) trail.now first reach distance }
    ensures found { IfOk result (FindsDetour (O.graph oracle.old) trail.now via_at first reach) }
    ensures same { O.graph oracle.new ≡ O.graph oracle.old }
    ensures asks { AsksWithin (O.asked oracle.old) (O.asked oracle.new) (reach - (via_at + 1)) }
{
    let mut clear = via_at;
    let mut last = reach;
    let mut distance = distance;
    'halves: while last - clear > 1 {
        let middle = clear + (last - clear) / 2;
        let between = distance_between(oracle, trail, first, middle)?;
        if between == length_between(trail, first, middle) {
            clear = middle;
        } else {
            last = middle;
            distance = between;
        }
    }
    Ok(Pair {
        first,
        last,
        distance,
    })
}
