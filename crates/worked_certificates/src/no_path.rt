//! Certificates that no walk leads from 6.

use crate::building::{Rows, block, fails, lists};
use certificate_text::{BlockKind, CertKind, Certificate, Finding};
use road_model::{CursorQuery, Items, NoMemory};
use std::alloc::Global;
use std::test::Fail;

// A certificate of a graph of six vertices and so many arcs, that no walk leads from 6 to the target.
fn nothing(alloc: Global, arcs: u64, to: u64, rows: Rows) -> Result<Certificate, NoMemory> {
    let mut blocks = Items::new(alloc);
    blocks.push(block(alloc, BlockKind::From, 6, None, rows)?)?;
    Ok(Certificate {
        vertices: 6,
        arcs,
        query: CursorQuery::usual(6, to),
        blocks,
        finding: Finding::Nothing,
    })
}

#[test]
fn no_walk_is_shown_by_a_block(rt: HostRuntime) -> Result<(), Fail> {
    let certificate = nothing(rt.alloc(), 6, 1, &[(6, 0, 0)])?;
    lists(&rt, rt.alloc(), &certificate, 0)
}

// A number of arcs, a target, the rows, and the line and the check that fails.
const FAILING: &[(u64, u64, Rows, u64, CertKind)] = &[
    (7, 1, &[(6, 0, 0)], 2, CertKind::Graph),
    (6, 7, &[(6, 0, 0)], 3, CertKind::Query),
    (6, 6, &[(6, 0, 0)], 7, CertKind::NoPath),
    (6, 1, &[(6, 1, 0)], 5, CertKind::Root),
    (6, 1, &[(7, 0, 0)], 5, CertKind::Vertex),
    (6, 1, &[], 5, CertKind::Rootless),
];

#[test]
fn a_change_of_it_fails(rt: HostRuntime) -> Result<(), Fail> {
    for row in FAILING {
        let (arcs, to, rows, line, kind) = *row;
        let certificate = nothing(rt.alloc(), arcs, to, rows)?;
        fails(&rt, rt.alloc(), &certificate, line, kind)?;
    }
    Ok(())
}
