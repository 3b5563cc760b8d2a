//! The verdict on a vertex.

ghost use Rattle.std.specs.Prelude.{◌≡◌, ◌<◌, ◌^◌, IfOk, IfSome};
ghost use Rattle.road_model.specs.Graph.{IsVertex};
ghost use Rattle.road_model.specs.Dist.{IsDist, HaveSameDist};
ghost use Rattle.road_model.specs.Canonical.{IsOptimum};
ghost use Rattle.road_model.specs.Fraction.{Stretches};
ghost use Rattle.road_model.specs.Verdicts.{IsVerdict, IsVerdictOf};
ghost use Rattle.via_search.specs.Settings.{trees_of};
ghost use Rattle.via_search.specs.Judging.{StaysCounted};
ghost use Rattle.via_search.specs.Through.{HasPathThrough, IsLengthThrough, NamesPath};
ghost use Rattle.plateau_finder.specs.Plateaus.{IsInBoth};

use crate::candidates::{candidate_of, is_optimum};
use crate::judging::{Judged, judge};
use crate::memory::PlanMemory;
use crate::setting::Setting;
use canonical_trees::{optimum_in, trees_in};
use forward_star::Star;
use plateau_finder::plateau_through;
use road_model::{NoMemory, Optimum, Oracle, Query, Verdict, Vertex};
use std::alloc::Global;

/// A distance of the star, by an oracle that may be of another graph.
fn distance<O: Oracle>(
    star: &Star,
    oracle: &mut O,
    from: Vertex,
    to: Vertex,
) -> Result<Option<u64>, NoMemory>
    requires from { IsVertex star.now.vertices from }
    requires to { IsVertex star.now.vertices to }
    requires same { HaveSameDist star.now (O.graph oracle.old) }
    ensures answer { IfOk result (λ d. IsDist star.now from to d) }
    ensures short { IfOk result (λ d. IfSome d (λ k. k < 2 ^ 57)) }
    ensures same { O.graph oracle.new ≡ O.graph oracle.old }
    ensures counted { StaysCounted (O.asked oracle.old) (O.asked oracle.new) }
{
    star.within_limits();
    oracle.distance(from, to)
}

/// The length of the path through `via`; none where no walk leads through it. Two questions at most.
fn length_through<O: Oracle>(
    star: &Star,
    oracle: &mut O,
    query: &Query,
    via: Vertex,
) -> Result<Option<u64>, NoMemory>
    requires source { IsVertex star.now.vertices query.now.from }
    requires target { IsVertex star.now.vertices query.now.to }
    requires through { IsVertex star.now.vertices via }
    requires same { HaveSameDist star.now (O.graph oracle.old) }
    ensures length { IfOk result (IsLengthThrough star.now query.now.from query.now.to via) }
    ensures same { O.graph oracle.new ≡ O.graph oracle.old }
    ensures counted { StaysCounted (O.asked oracle.old) (O.asked oracle.new) }
{
    star.within_limits();
    let Some(near) = distance(star, oracle, query.from, via)? else {
        return Ok(None);
    };
    let Some(left) = distance(star, oracle, via, query.to)? else {
        return Ok(None);
    };
    Ok(Some(near + left))
}

/// The name of the path through a vertex: the least vertex of its plateau.
fn name_of(setting: &Setting<'_>, via: Vertex) -> Vertex
    requires { IsInBoth (trees_of setting.now) via }
    ensures { NamesPath (trees_of setting.now) via result }
{
    let Some(plateau) = plateau_through(setting.pair, via) else {
        unreachable!()
    };
    plateau.least
}

/// The verdict on a vertex whose path is within the stretch bound. The trees reach no farther than the path does.
fn verdict_on_path<O: Oracle>(
    alloc: Global,
    setting: &Setting<'_>,
    oracle: &mut O,
    via: Vertex,
) -> Result<Verdict, NoMemory>
    requires target { IsVertex setting.now.graph.vertices setting.now.query.to }
    requires through { HasPathThrough setting.now.graph setting.now.query.from setting.now.query.to via
        setting.now.reach }
    requires near { Stretches setting.now.query.epsilon setting.now.reach setting.now.optimum.length }
    requires same { HaveSameDist setting.now.graph (O.graph oracle.old) }
    ensures verdict { IfOk result
        (IsVerdict setting.now.graph setting.now.query setting.now.optimum.arcs via) }
    ensures same { O.graph oracle.new ≡ O.graph oracle.old }
    ensures counted { StaysCounted (O.asked oracle.old) (O.asked oracle.new) }
{
    // Reading a field tells the proof what each setting keeps.
    let _posed = setting.optimum;
    let Some(candidate) = candidate_of(alloc, setting, via)? else {
        unreachable!()
    };
    if is_optimum(setting, &candidate) {
        return Ok(Verdict::Optimum);
    }
    match judge(alloc, setting, oracle, &candidate)? {
        Judged::Long => unreachable!(),
        Judged::Shared(sum) => Ok(Verdict::Shared(sum)),
        Judged::Local(failing) => Ok(Verdict::Local(failing)),
        Judged::Stretch(failing) => Ok(Verdict::Stretch(failing)),
        Judged::Passed(_) => Ok(Verdict::Listed(name_of(setting, via))),
    }
}

/// Why the path through a vertex is, or isn't, among the alternatives of a query whose optimum is known: the first reason
/// that holds, in the order of [`Verdict`]'s variants. None exactly where no walk leads from the source to the target.
///
/// It takes two questions to the oracle. Where the path is within the stretch bound, it takes also two searches as far as
/// the path is long, in the memory that is handed in and kept for the next query, the tests of this one path, and memory
/// linear in its arcs. An `Err` leaves the oracle as good as before.
pub fn verdict_with<O: Oracle>(
    alloc: Global,
    memory: &mut PlanMemory,
    star: &Star,
    oracle: &mut O,
    query: &Query,
    optimum: Option<Optimum>,
    via: Vertex,
) -> Result<Option<Verdict>, NoMemory>
    requires source { IsVertex star.now.vertices query.now.from }
    requires target { IsVertex star.now.vertices query.now.to }
    requires through { IsVertex star.now.vertices via }
    requires same { HaveSameDist star.now (O.graph oracle.old) }
    requires optimum { IsOptimum star.now query.now.from query.now.to optimum }
    requires short { IfSome optimum (λ o. o.length < 2 ^ 57) }
    ensures verdict { IfOk result (IsVerdictOf star.now query.now via) }
    ensures same { O.graph oracle.new ≡ O.graph oracle.old }
    ensures counted { StaysCounted (O.asked oracle.old) (O.asked oracle.new) }
{
    star.within_limits();
    let Some(optimum) = optimum else {
        return Ok(None);
    };
    let Some(length) = length_through(star, oracle, query, via)? else {
        return Ok(Some(Verdict::Unreached));
    };
    if !query.epsilon.stretches(length, optimum.length) {
        return Ok(Some(Verdict::Long(length)));
    }
    // One path alone is followed, so its steps needn't be kept.
    let pair = trees_in(
        alloc,
        &mut memory.trees,
        star,
        query.from,
        query.to,
        Some(length),
    )?;
    let setting = Setting::of(star, &pair, query, &optimum, length);
    let found = verdict_on_path(alloc, &setting, oracle, via)?;
    memory.trees = pair.into_memory();
    Ok(Some(found))
}

/// The verdict that `verdict_with` finds, with the optimum by a search that stops at the target, in the same memory.
pub fn verdict_in<O: Oracle>(
    alloc: Global,
    memory: &mut PlanMemory,
    star: &Star,
    oracle: &mut O,
    query: &Query,
    via: Vertex,
) -> Result<Option<Verdict>, NoMemory>
    requires source { IsVertex star.now.vertices query.now.from }
    requires target { IsVertex star.now.vertices query.now.to }
    requires through { IsVertex star.now.vertices via }
    requires same { HaveSameDist star.now (O.graph oracle.old) }
    ensures verdict { IfOk result (IsVerdictOf star.now query.now via) }
    ensures same { O.graph oracle.new ≡ O.graph oracle.old }
    ensures counted { StaysCounted (O.asked oracle.old) (O.asked oracle.new) }
{
    let optimum = optimum_in(alloc, &mut memory.trees, star, query.from, query.to)?;
    let verdict = verdict_with(alloc, memory, star, oracle, query, optimum, via)?;
    Ok(verdict)
}

/// The same in memory of its own, which is laid out for this query alone.
pub fn verdict<O: Oracle>(
    alloc: Global,
    star: &Star,
    oracle: &mut O,
    query: &Query,
    via: Vertex,
) -> Result<Option<Verdict>, NoMemory>
    requires source { IsVertex star.now.vertices query.now.from }
    requires target { IsVertex star.now.vertices query.now.to }
    requires through { IsVertex star.now.vertices via }
    requires same { HaveSameDist star.now (O.graph oracle.old) }
    ensures verdict { IfOk result (IsVerdictOf star.now query.now via) }
    ensures same { O.graph oracle.new ≡ O.graph oracle.old }
    ensures counted { StaysCounted (O.asked oracle.old) (O.asked oracle.new) }
{
    let mut memory = PlanMemory::new(alloc);
    let verdict = verdict_in(alloc, &mut memory, star, oracle, query, via)?;
    Ok(verdict)
}
