//! The path of a route, and its name: the least of the near vertices that the path leads through.

ghost use Rattle.std.specs.Prelude.{◌↔◌, IsTrue, IfOk};
ghost use Rattle.recheck.specs.Paths.{IsNear};
ghost use Rattle.recheck.specs.Routes.{IsOwnPath, IsLeastName};
ghost use Rattle.recheck.specs.Standing.{IsSound};
ghost use Rattle.recheck.specs.Runs.{IsLinked, IsLinkedBack, IsWholeRun};

use crate::basis::Basis;
use crate::links::{next_of, previous_of};
use crate::walks::{is_through, same_numbers};
use certificate_text::CertRoute;
use road_model::NoMemory;
use std::alloc::Global;

/// Whether the arcs of a route are the path through its vertex, and aren't the optimum's.
///
/// It takes 16 bytes an arc of that path; each costs the logarithm of the rows.
pub(crate) fn is_own_path(alloc: Global, basis: &Basis, r: &CertRoute) -> Result<bool, NoMemory>
    requires { IsNear basis.now r.now.via }
    ensures { IfOk result (λ is. IsTrue is ↔ IsOwnPath basis.now r.now) }
{
    let arcs = r.arcs.as_slice();
    if same_numbers(arcs, basis.optimum) {
        return Ok(false);
    }
    let is = is_through(alloc, basis, r.via, arcs)?;
    Ok(is)
}

/// How far links lead from a vertex, one way: to the last vertex, and past the least one, which may be it or the first.
#[derive(Clone, Copy)]
pub(crate) struct RunSide {
    pub(crate) end: u64,
    pub(crate) least: u64,
}

/// Along the path. Time: its arcs to there, each with the logarithm of the rows.
pub(crate) fn side_after(basis: &Basis, v: u64) -> RunSide
    ensures whole { IsWholeRun (IsLinked basis.now) v result.end result.least }
    ensures sound { IsSound basis.now }
{
    let mut end = v;
    let mut least = v;
    while let Some(next) = next_of(basis, end) {
        end = next;
        least = least.min(next);
    }
    RunSide { end, least }
}

/// Against the path. Time: its arcs from there, each with the logarithm of the rows.
pub(crate) fn side_before(basis: &Basis, v: u64) -> RunSide
    ensures { IsWholeRun (IsLinkedBack basis.now) v result.end result.least }
{
    let mut end = v;
    let mut least = v;
    while let Some(previous) = previous_of(basis, end) {
        end = previous;
        least = least.min(previous);
    }
    RunSide { end, least }
}

/// Whether no lower near vertex has the same path. Time: the path's arcs, each with the logarithm of the rows.
pub(crate) fn is_least_name(basis: &Basis, r: &CertRoute) -> bool
    requires near { IsNear basis.now r.now.via }
    requires own { IsOwnPath basis.now r.now }
    ensures { IsTrue result ↔ IsLeastName basis.now r.now }
{
    let after = side_after(basis, r.via);
    let before = side_before(basis, r.via);
    r.via <= after.least.min(before.least)
}
