//! The checks on route lines.

ghost use Rattle.std.specs.Prelude.{◌≡◌, None, IfOk};
ghost use Rattle.std.specs.Option.{option_copied};
ghost use Rattle.recheck.specs.Paths.{IsNear, IsThrough};
ghost use Rattle.recheck.specs.Routes.{IsOwnPath};
ghost use Rattle.recheck.specs.Checks.{done, FindsFirst, route_checks, routes_checks};
ghost use Rattle.recheck.specs.Across.{across_checks, path_checks};

use crate::across::{is_covered, is_local, is_unstretched};
use crate::basis::Basis;
use crate::lines::{fault, later_line};
use crate::names::{is_least_name, is_own_path};
use crate::near::is_near;
use crate::numbers::are_numbers;
use crate::order::{is_after, is_share_allowed};
use crate::places::places_of;
use certificate_text::{CertFault, CertKind, CertRoute};
use road_model::NoMemory;
use std::alloc::Global;

// The first of the checks on the subpaths of a route across its vertex that fails.
fn across_fault(
    alloc: Global,
    basis: &Basis,
    line: u64,
    r: &CertRoute,
) -> Result<Option<CertFault>, NoMemory>
    requires { IsThrough basis.now r.now.via r.now.arcs }
    ensures { IfOk result (λ o. FindsFirst (across_checks basis.now line r.now done) o) }
{
    let from = basis.query.from.number() as u64;
    let places = places_of(alloc, basis.star, from, r.arcs.as_slice())?;
    if !is_covered(basis, r, &places) {
        return Ok(Some(fault(line, CertKind::Cover)));
    }
    if !is_local(basis, r, &places) {
        return Ok(Some(fault(line, CertKind::Local)));
    }
    if !is_unstretched(basis, r, &places) {
        return Ok(Some(fault(line, CertKind::Stretch)));
    }
    Ok(None)
}

// The first of the checks on a route's own path that fails.
fn path_fault(
    alloc: Global,
    basis: &Basis,
    line: u64,
    r: &CertRoute,
) -> Result<Option<CertFault>, NoMemory>
    requires near { IsNear basis.now r.now.via }
    requires own { IsOwnPath basis.now r.now }
    ensures { IfOk result (λ o. FindsFirst (path_checks basis.now line r.now done) o) }
{
    if !is_least_name(basis, r) {
        return Ok(Some(fault(line, CertKind::Name)));
    }
    if !are_numbers(alloc, basis, r)? {
        return Ok(Some(fault(line, CertKind::Numbers)));
    }
    if !is_share_allowed(basis, r) {
        return Ok(Some(fault(line, CertKind::Share)));
    }
    let found = across_fault(alloc, basis, line, r)?;
    Ok(found)
}

/// The first check that a route line fails.
///
/// It takes 40 bytes an arc. The subpaths across the route's vertex cost the most: see `is_local` and `is_unstretched`.
pub(crate) fn route_fault(
    alloc: Global,
    basis: &Basis,
    line: u64,
    before: Option<&CertRoute>,
    r: &CertRoute,
) -> Result<Option<CertFault>, NoMemory>
    ensures { IfOk result (λ o. FindsFirst (route_checks basis.now line (option_copied before.entry) r.now done) o) }
{
    if !is_near(basis, r.via) {
        return Ok(Some(fault(line, CertKind::Near)));
    }
    if !is_own_path(alloc, basis, r)? {
        return Ok(Some(fault(line, CertKind::Walk)));
    }
    match path_fault(alloc, basis, line, r) {
        Err(e) => return Err(e),
        Ok(Some(found)) => return Ok(Some(found)),
        Ok(None) => {}
    }
    if !is_after(before, r) {
        return Ok(Some(fault(line, CertKind::Order)));
    }
    Ok(None)
}

/// The first fault of the route lines, the first of which has this number.
pub(crate) fn routes_fault(
    alloc: Global,
    basis: &Basis,
    line: u64,
    routes: &[CertRoute],
) -> Result<Option<CertFault>, NoMemory>
    ensures { IfOk result (λ o. FindsFirst (routes_checks basis.now line None routes.now (λ _. done)) o) }
{
    let mut at = line;
    let mut before = None;
    for r in routes {
        match route_fault(alloc, basis, at, before, r) {
            Err(e) => return Err(e),
            Ok(Some(found)) => return Ok(Some(found)),
            Ok(None) => {}
        }
        at = later_line(at, 1)?;
        before = Some(r);
    }
    Ok(None)
}
