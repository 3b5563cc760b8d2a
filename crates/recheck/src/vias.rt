//! The checks on via lines.

ghost use Rattle.std.specs.Prelude.{◌≡◌, ◌<◌, ◌↔◌, length, slice_index, IfOk, IsTrue};
ghost use Rattle.recheck.specs.Checks.{FindsFirst, vias_checks};
ghost use Rattle.recheck.specs.Nears.{IsPast};
ghost use Rattle.std.specs.List.Sorted.{IsStrictlyIncreasing};

use crate::basis::Basis;
use crate::lines::{fault, later_line};
use crate::near::near_vertices;
use crate::reasons::has_reason;
use certificate_text::{CertFault, CertKind, CertRoute, ViaRow};
use road_model::NoMemory;
use std::alloc::Global;

// The place of the first of these vertices that is above 0.
fn first_place(nears: &[u64]) -> usize
    requires { IsStrictlyIncreasing nears.now }
    ensures { IsPast nears.now result 0 }
{
    if !nears.is_empty() && nears[0] == 0 {
        return 1;
    }
    0
}

// Whether a vertex is the one at this place.
fn stands_at(nears: &[u64], place: usize, vertex: u64) -> bool
    ensures { IsTrue result ↔ ((place < length nears.now) × (slice_index nears.now place ≡ vertex)) }
{
    place < nears.len() && nears[place] == vertex
}

/// The first fault of the via lines, the first of which has this number.
///
/// The lines are compared with the near vertices, in one pass over both. Each line costs the path through its vertex
/// besides.
pub(crate) fn vias_fault(
    alloc: Global,
    basis: &Basis,
    routes: &[CertRoute],
    line: u64,
    vias: &[ViaRow],
) -> Result<Option<CertFault>, NoMemory>
    ensures { IfOk result (λ o. FindsFirst (vias_checks basis.now routes.now line 0 vias.now) o) }
{
    let nears = near_vertices(alloc, basis)?;
    let mut place = first_place(&nears);
    let mut at = line;
    for via in vias {
        if !stands_at(&nears, place, via.vertex) {
            return Ok(Some(fault(at, CertKind::Next)));
        }
        if !has_reason(alloc, basis, routes, via)? {
            return Ok(Some(fault(at, CertKind::Reason)));
        }
        at = later_line(at, 1)?;
        place += 1;
    }
    if place < nears.len() {
        return Ok(Some(fault(at, CertKind::Next)));
    }
    Ok(None)
}
