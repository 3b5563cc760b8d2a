//! The reasons of via lines.

ghost use Rattle.std.specs.Prelude.{◌≡◌, ◌↔◌, IfOk, IsTrue};
ghost use Rattle.recheck.specs.Paths.{IsNear, trail};
ghost use Rattle.recheck.specs.Reasons.{IsListedAs, IsOverShared, IsReason, Shows};

use crate::basis::Basis;
use crate::detours::{is_over_stretched, is_shorter};
use crate::measures::{above_wide, shared_length};
use crate::places::{PathPlaces, places_of};
use crate::walks::{path_through, same_numbers};
use certificate_text::{CertRoute, Reason, ViaRow};
use road_model::NoMemory;
use std::alloc::Global;

/// Whether a path shares this much with the optimum, and that is too much.
pub(crate) fn is_over_shared(
    alloc: Global,
    basis: &Basis,
    path: &[u64],
    sum: u64,
) -> Result<bool, NoMemory>
    ensures { IfOk result (λ is. IsTrue is ↔ IsOverShared basis.now path.now sum) }
{
    let shared = shared_length(alloc, basis.star, basis.optimum, path)?;
    Ok(sum as u128 == shared && above_wide(&basis.query.gamma, shared, basis.best))
}

// Whether a route has the name and the path.
fn is_so_named(route: &CertRoute, path: &[u64], name: u64) -> bool
    ensures { IsTrue result ↔ ((route.now.via ≡ name) × (route.now.arcs ≡ path.now)) }
{
    route.via == name && same_numbers(route.arcs.as_slice(), path)
}

/// Whether a route of a name has the path. Time: the routes, and the path for each of that name.
pub(crate) fn is_listed_as(routes: &[CertRoute], path: &[u64], name: u64) -> bool
    ensures { IsTrue result ↔ IsListedAs routes.now path.now name }
{
    for route in routes {
        if is_so_named(route, path, name) {
            return true;
        }
    }
    false
}

// Whether a reason holds of a path.
fn shows(
    alloc: Global,
    basis: &Basis,
    routes: &[CertRoute],
    path: &[u64],
    reason: &Reason,
) -> Result<bool, NoMemory>
    ensures { IfOk result (λ is. IsTrue is ↔ Shows basis.now routes.now path.now reason.now) }
{
    match reason {
        Reason::Optimum => Ok(same_numbers(path, basis.optimum)),
        Reason::Shared(sum) => is_over_shared(alloc, basis, path, *sum),
        Reason::Local {
            first,
            last,
            detour,
        } => {
            let places = path_places(alloc, basis, path)?;
            let is = is_shorter(basis, path, &places, *first, *last, detour.as_slice());
            Ok(is)
        }
        Reason::Stretch {
            first,
            last,
            detour,
        } => {
            let places = path_places(alloc, basis, path)?;
            let is = is_over_stretched(basis, path, &places, *first, *last, detour.as_slice());
            Ok(is)
        }
        Reason::Listed(name) => Ok(is_listed_as(routes, path, *name)),
    }
}

/// The places of a path from the source.
pub(crate) fn path_places(
    alloc: Global,
    basis: &Basis,
    path: &[u64],
) -> Result<PathPlaces, NoMemory>
    ensures { IfOk result (λ p. p ≡ trail basis.now path.now) }
{
    places_of(alloc, basis.star, basis.query.from.number() as u64, path)
}

/// Whether the reason of a via line holds of the path through its vertex.
///
/// It makes that path, and takes time linear in it, but for a logarithm, and in the reason's detour.
pub(crate) fn has_reason(
    alloc: Global,
    basis: &Basis,
    routes: &[CertRoute],
    line: &ViaRow,
) -> Result<bool, NoMemory>
    requires { IsNear basis.now line.now.vertex }
    ensures { IfOk result (λ is. IsTrue is ↔ IsReason basis.now routes.now line.now) }
{
    let path = path_through(alloc, basis, line.vertex)?;
    let is = shows(alloc, basis, routes, &path, &line.reason)?;
    Ok(is)
}
