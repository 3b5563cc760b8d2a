//! Certificates of the way from 1 to 6, and of its alternative over 3 and 4.

use crate::building::{Rows, block, fails, lists};
use certificate_text::{BlockKind, CertKind, CertRoute, Certificate, Finding, Reason, ViaRow};
use road_model::{CursorQuery, Items, NoMemory};
use std::alloc::Global;
use std::test::Fail;

const FROM_1: Rows = &[(1, 0, 0), (2, 10, 1), (3, 11, 3), (4, 17, 4), (6, 20, 2)];

const TO_6: Rows = &[(1, 20, 1), (2, 10, 2), (3, 11, 4), (4, 5, 5), (6, 0, 0)];

// The path over 3 and 4, with this plateau.
fn over_3(alloc: Global, plateau: u64) -> Result<CertRoute, NoMemory> {
    Ok(CertRoute {
        via: 3,
        length: 22,
        shared: 0,
        plateau,
        rank: 38,
        arcs: Items::from_slice(alloc, &[3, 4, 5])?,
    })
}

// A line for each vertex near enough to both ends. Those up to this one have theirs.
fn vias(alloc: Global, last: u64) -> Result<Items<ViaRow>, NoMemory> {
    let mut vias = Items::new(alloc);
    for vertex in 1..=last {
        if vertex == 5 {
            continue;
        }
        let reason = if vertex == 3 || vertex == 4 {
            Reason::Listed(3)
        } else {
            Reason::Optimum
        };
        vias.push(ViaRow { vertex, reason })?;
    }
    Ok(vias)
}

// A certificate with these rows from 1, this plateau of the alternative, and vias up to this one.
fn two_paths(alloc: Global, rows: Rows, plateau: u64, last: u64) -> Result<Certificate, NoMemory> {
    let mut blocks = Items::new(alloc);
    blocks.push(block(alloc, BlockKind::From, 1, Some(25), rows)?)?;
    blocks.push(block(alloc, BlockKind::To, 6, Some(25), TO_6)?)?;
    let mut routes = Items::new(alloc);
    routes.push(over_3(alloc, plateau)?)?;
    Ok(Certificate {
        vertices: 6,
        arcs: 6,
        query: CursorQuery::usual(1, 6),
        blocks,
        finding: Finding::Found {
            length: 20,
            arcs: Items::from_slice(alloc, &[1, 2])?,
            routes,
            vias: vias(alloc, last)?,
        },
    })
}

#[test]
fn a_path_and_an_alternative_are_shown(rt: HostRuntime) -> Result<(), Fail> {
    let certificate = two_paths(rt.alloc(), FROM_1, 6, 6)?;
    lists(&rt, rt.alloc(), &certificate, 2)
}

const HIGH_4: Rows = &[(1, 0, 0), (2, 10, 1), (3, 11, 3), (4, 18, 4), (6, 20, 2)];

const OVER_2: Rows = &[(1, 0, 0), (2, 10, 1), (3, 11, 6), (4, 17, 4), (6, 20, 2)];

const NO_6: Rows = &[(1, 0, 0), (2, 10, 1), (3, 11, 3), (4, 17, 4)];

const FALLING: Rows = &[(1, 0, 0), (3, 11, 3), (2, 10, 1), (4, 17, 4), (6, 20, 2)];

// The rows from 1, the plateau, the last via, and the line and the check that fails.
const FAILING: &[(Rows, u64, u64, u64, CertKind)] = &[
    (HIGH_4, 6, 6, 8, CertKind::Tight),
    (OVER_2, 6, 6, 7, CertKind::Least),
    (NO_6, 6, 6, 9, CertKind::Closed),
    (FALLING, 6, 6, 7, CertKind::Vertex),
    (FROM_1, 5, 6, 19, CertKind::Numbers),
    (FROM_1, 6, 4, 24, CertKind::Next),
];

#[test]
fn a_change_of_them_fails(rt: HostRuntime) -> Result<(), Fail> {
    for row in FAILING {
        let (rows, plateau, last, line, kind) = *row;
        let certificate = two_paths(rt.alloc(), rows, plateau, last)?;
        fails(&rt, rt.alloc(), &certificate, line, kind)?;
    }
    Ok(())
}
