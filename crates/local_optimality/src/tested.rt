ghost use Rattle.std.specs.Prelude.{◌≡◌, ◌<◌, ◌≤◌, ◌+◌, ◌↔◌, ℕ, length, IsTrue};
ghost use Rattle.road_model.specs.Tests.{IsTested};
ghost use Rattle.local_optimality.specs.Detour.{HasRisingSums};

use path_tests::length_between;
use road_model::{Ratio, Trail};

// The last place such that the subpath from `first` up to it is tested, given that those up to `from` are.
// As the first place goes on this one never goes back. Linear in the places.
pub fn last_tested(
    trail: &Trail,
    via_at: u32,
    alpha: &Ratio,
    opt_len: u64,
    first: u32,
    from: u32,
) -> u32
    requires rising { HasRisingSums trail.now }
    requires before { first < via_at }
    requires beyond { via_at ≤ from }
    requires inside { from < length trail.now.vertices }
    requires begun { (j : ℕ) → via_at < j → j ≤ from → IsTested alpha.now opt_len trail.now first j }
    ensures onward { from ≤ result }
    ensures inside { result < length trail.now.vertices }
    ensures tested { (j : ℕ) → via_at < j → j ≤ result → IsTested alpha.now opt_len trail.now first j }
    ensures last { (j : ℕ) → result < j → j < length trail.now.vertices →
        IsTested alpha.now opt_len trail.now first j → ⊥ }
{
    let places = trail.vertices.len() as u32;
    for last in from + 1..places {
        if !is_tested(trail, alpha, opt_len, first, last) {
            return last - 1;
        }
    }
    places - 1
}

// The first place before the via whose subpath to the place after the via is tested; the via where none is. No
// subpath round the via that begins before it is tested.
pub fn first_round(trail: &Trail, via_at: u32, alpha: &Ratio, opt_len: u64) -> u32
    requires rising { HasRisingSums trail.now }
    requires inside { via_at < length trail.now.vertices }
    ensures within { result ≤ via_at }
    ensures untested { (i j : ℕ) → i < result → via_at < j → j < length trail.now.vertices →
        IsTested alpha.now opt_len trail.now i j → ⊥ }
{
    let places = trail.vertices.len() as u32;
    if via_at + 1 == places {
        return via_at;
    }
    for first in 0..via_at {
        if is_tested(trail, alpha, opt_len, first, via_at + 1) {
            return first;
        }
    }
    via_at
}

// Whether a subpath of two arcs at least is short enough, or is without its first and its last arc.
fn is_tested(trail: &Trail, alpha: &Ratio, opt_len: u64, first: u32, last: u32) -> bool
    requires rising { HasRisingSums trail.now }
    requires apart { first + 2 ≤ last }
    requires inside { last < length trail.now.vertices }
    ensures { IsTrue result ↔ IsTested alpha.now opt_len trail.now first last }
{
    alpha.allows(length_between(trail, first, last), opt_len)
        || alpha.below(length_between(trail, first + 1, last - 1), opt_len)
}
