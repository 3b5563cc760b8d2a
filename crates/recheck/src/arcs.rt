//! Arcs by numbers that may be anything.

ghost use Rattle.std.specs.Prelude.{◌≡◌, ◌<◌, ◌^◌};
ghost use Rattle.road_model.specs.Graph.{arc_at, arc_count, head_at, length_at};

use forward_star::Star;
use road_model::{ArcNo, ArcRow, Network};

/// The arc of a number, if there is one.
pub(crate) fn find_arc<N: Network>(net: &N, number: u64) -> Option<ArcRow>
    requires few { arc_count (N.graph net.now) < 2 ^ 32 }
    ensures { result ≡ arc_at (N.graph net.now) number }
{
    if number > u32::MAX as u64 {
        return None;
    }
    net.arc(ArcNo(number as u32))
}

/// The head of an arc, and 0 where there is none.
pub(crate) fn head_of(star: &Star, number: u64) -> u64
    ensures { result ≡ head_at star.now number }
{
    star.within_limits();
    match find_arc(star, number) {
        Some(row) => row.head.number() as u64,
        None => 0,
    }
}

/// The length of an arc, and 0 where there is none.
pub(crate) fn length_of(star: &Star, number: u64) -> u64
    ensures value { result ≡ length_at star.now number }
    ensures short { result < 2 ^ 32 }
{
    star.within_limits();
    match find_arc(star, number) {
        Some(row) => row.length,
        None => 0,
    }
}
