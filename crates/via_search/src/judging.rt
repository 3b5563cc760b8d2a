//! The tests of a candidate.

ghost use Rattle.std.specs.Prelude.{◌≡◌, ◌<◌, ◌^◌, Some, IfOk, length, slice_index, Contains};
ghost use Rattle.road_model.specs.Dist.{HaveSameDist};
ghost use Rattle.via_search.specs.Candidates.{IsCandidate};
ghost use Rattle.via_search.specs.Judging.{IsJudged, IsTried, IsPassing, StaysCounted};
ghost use Rattle.via_search.specs.Asks.{AsksOnce};

use crate::candidates::Candidate;
use crate::setting::Setting;
use local_optimality::{is_local, local};
use path_tests::{is_stretch_bounded, shared, stretch, within_share};
use road_model::{NoMemory, Oracle, Pair, Trail};
use std::alloc::Global;

/// The first test that a path fails, in the order of what they cost, or that it passes all.
#[derive(Clone, Copy, Debug)]
pub(crate) enum Judged {
    /// It is too long, as a whole.
    Long,
    /// It shares too much with the optimum; with the shared length.
    Shared(u64),
    /// A subpath that has to be shortest isn't.
    Local(Pair),
    /// A subpath is stretched too far.
    Stretch(Pair),
    /// It is admissible; with the length that it shares with the optimum.
    Passed(u64),
}

/// The place where the length so far is `near`.
fn place_of(trail: &Trail, near: u64) -> u32
    requires few { length trail.now.sums < 2 ^ 32 }
    requires has { Contains trail.now.sums near }
    ensures inside { result < length trail.now.sums }
    ensures is { slice_index trail.now.sums result ≡ near }
{
    for (place, sum) in trail.sums.as_slice().iter().enumerate() {
        if *sum == near {
            return place as u32;
        }
    }
    unreachable!()
}

pub(crate) fn judge<O: Oracle>(
    alloc: Global,
    setting: &Setting<'_>,
    oracle: &mut O,
    candidate: &Candidate,
) -> Result<Judged, NoMemory>
    requires same { HaveSameDist setting.now.graph (O.graph oracle.old) }
    requires candidate { IsCandidate setting.now.graph setting.now.query.from setting.now.query.to candidate.now }
    ensures judged { IfOk result
        (IsJudged setting.now.graph setting.now.query setting.now.optimum.arcs candidate.now.arcs) }
    ensures same { O.graph oracle.new ≡ O.graph oracle.old }
    ensures counted { StaysCounted (O.asked oracle.old) (O.asked oracle.new) }
{
    let query = setting.query;
    let optimum = setting.optimum;
    if !query.epsilon.stretches(candidate.length, optimum.length) {
        return Ok(Judged::Long);
    }
    let sum = shared(setting.star, &optimum.arcs, &candidate.arcs);
    if !within_share(sum, &query.gamma, optimum.length) {
        return Ok(Judged::Shared(sum));
    }
    match put_to_oracle(alloc, setting, oracle, candidate)? {
        Tried::Local(pair) => Ok(Judged::Local(pair)),
        Tried::Stretch(pair) => Ok(Judged::Stretch(pair)),
        Tried::Passed => Ok(Judged::Passed(sum)),
    }
}

/// The first of the tests by questions that a path fails, or that it passes both.
#[derive(Clone, Copy, Debug)]
pub(crate) enum Tried {
    /// A subpath that has to be shortest isn't.
    Local(Pair),
    /// A subpath is stretched too far.
    Stretch(Pair),
    /// Neither is so.
    Passed,
}

/// The tests that ask the oracle. They are put at the place of the candidate's via.
pub(crate) fn put_to_oracle<O: Oracle>(
    alloc: Global,
    setting: &Setting<'_>,
    oracle: &mut O,
    candidate: &Candidate,
) -> Result<Tried, NoMemory>
    requires same { HaveSameDist setting.now.graph (O.graph oracle.old) }
    requires candidate { IsCandidate setting.now.graph setting.now.query.from setting.now.query.to candidate.now }
    ensures tried { IfOk result
        (IsTried setting.now.graph setting.now.query setting.now.optimum.arcs candidate.now.arcs) }
    ensures same { O.graph oracle.new ≡ O.graph oracle.old }
    ensures counted { StaysCounted (O.asked oracle.old) (O.asked oracle.new) }
    ensures asks { AsksOnce setting.now.graph setting.now.query.from setting.now.query.to candidate.now.arcs
        candidate.now.via (O.asked oracle.old) (O.asked oracle.new) }
{
    let query = setting.query;
    let optimum = setting.optimum;
    let trail = Trail::of(alloc, setting.star, query.from, candidate.arcs.as_slice())?;
    let via_at = place_of(&trail, candidate.near);
    if let Some(pair) = local(oracle, &trail, via_at, &query.alpha, optimum.length)? {
        return Ok(Tried::Local(pair));
    }
    if let Some(pair) = stretch(oracle, &trail, via_at, &query.epsilon)? {
        return Ok(Tried::Stretch(pair));
    }
    Ok(Tried::Passed)
}

/// Whether a path passes the same tests. It asks no more than they do, and looks for no least pair.
pub(crate) fn passes_oracle<O: Oracle>(
    alloc: Global,
    setting: &Setting<'_>,
    oracle: &mut O,
    candidate: &Candidate,
) -> Result<bool, NoMemory>
    requires same { HaveSameDist setting.now.graph (O.graph oracle.old) }
    requires candidate { IsCandidate setting.now.graph setting.now.query.from setting.now.query.to candidate.now }
    ensures passing { IfOk result
        (IsPassing setting.now.graph setting.now.query setting.now.optimum.arcs candidate.now.arcs) }
    ensures same { O.graph oracle.new ≡ O.graph oracle.old }
    ensures counted { StaysCounted (O.asked oracle.old) (O.asked oracle.new) }
    ensures asks { AsksOnce setting.now.graph setting.now.query.from setting.now.query.to candidate.now.arcs
        candidate.now.via (O.asked oracle.old) (O.asked oracle.new) }
{
    let query = setting.query;
    let optimum = setting.optimum;
    let trail = Trail::of(alloc, setting.star, query.from, candidate.arcs.as_slice())?;
    let via_at = place_of(&trail, candidate.near);
    let optimal = is_local(oracle, &trail, via_at, &query.alpha, optimum.length)?;
    if !optimal {
        return Ok(false);
    }
    let bounded = is_stretch_bounded(oracle, &trail, via_at, &query.epsilon)?;
    Ok(bounded)
}
