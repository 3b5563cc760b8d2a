//! The checks of a path and its alternatives.

ghost use Rattle.std.specs.Prelude.{◌≡◌, IfOk};
ghost use Rattle.recheck.specs.Standing.{AllStand};
ghost use Rattle.recheck.specs.Paths.{ground_of};
ghost use Rattle.recheck.specs.Checks.{FindsFirst, IsQuery, found_checks};

use crate::basis::Basis;
use crate::best::{is_best, is_bounded};
use crate::blocks::line_after_routes;
use crate::lines::{fault, later_line};
use crate::routes::routes_fault;
use crate::vias::vias_fault;
use certificate_text::{CertFault, CertKind, CertRoute, ViaRow};
use road_model::NoMemory;
use std::alloc::Global;

/// The first check that the optimum on this line, the routes or the vias fail.
pub(crate) fn found_fault(
    alloc: Global,
    basis: &Basis<'_>,
    line: u64,
    routes: &[CertRoute],
    vias: &[ViaRow],
) -> Result<Option<CertFault>, NoMemory>
    ensures { IfOk result (λ o. FindsFirst (found_checks basis.now line routes.now vias.now) o) }
{
    if !is_best(alloc, basis)? {
        return Ok(Some(fault(line, CertKind::Optimum)));
    }
    if !is_bounded(basis) {
        return Ok(Some(fault(line, CertKind::Bound)));
    }
    let first = later_line(line, 1)?;
    match routes_fault(alloc, basis, first, routes) {
        Err(e) => return Err(e),
        Ok(Some(fault)) => return Ok(Some(fault)),
        Ok(None) => {}
    }
    let next = line_after_routes(first, routes)?;
    vias_fault(alloc, basis, routes, next, vias)
}
