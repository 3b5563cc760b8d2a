//! Certificates as texts, and where a write of them fails.

use crate::{
    Block, BlockKind, BlockRow, CertRoute, Certificate, Finding, Reason, ViaRow, put_certificate,
};
use road_io::{MemSink, Put};
use road_model::{CursorQuery, Items, NoMemory};
use std::alloc::Global;
use std::process::Abort;
use std::test::Fail;

/// A block of these rows.
fn block(
    alloc: Global,
    kind: BlockKind,
    root: u64,
    radius: Option<u64>,
    rows: &[BlockRow],
) -> Result<Block, NoMemory> {
    Ok(Block {
        kind,
        root,
        radius,
        rows: Items::from_slice(alloc, rows)?,
    })
}

/// A row of a root.
fn root_row(vertex: u64) -> BlockRow {
    BlockRow {
        vertex,
        label: 0,
        arc: 0,
    }
}

/// A certificate that no walk leads from 6 to 1.
fn nothing(alloc: Global) -> Result<Certificate, NoMemory> {
    let mut blocks = Vec::new(alloc);
    blocks.push(block(alloc, BlockKind::From, 6, None, &[root_row(6)])?)?;
    Ok(Certificate {
        vertices: 6,
        arcs: 6,
        query: CursorQuery::usual(6, 1),
        blocks: Items::from_vec(blocks),
        finding: Finding::Nothing,
    })
}

/// A vertex with a detour of these arcs.
fn stretched(alloc: Global, vertex: u64, arcs: &[u64]) -> Result<ViaRow, NoMemory> {
    let reason = Reason::Stretch {
        first: 1,
        last: 3,
        detour: Items::from_slice(alloc, arcs)?,
    };
    Ok(ViaRow { vertex, reason })
}

/// A vertex with a subpath that a walk of no arc is shorter than.
fn wandering(alloc: Global, vertex: u64) -> Result<ViaRow, NoMemory> {
    let reason = Reason::Local {
        first: 0,
        last: 2,
        detour: Items::from_slice(alloc, &[])?,
    };
    Ok(ViaRow { vertex, reason })
}

/// A vertex for each reason.
fn vias(alloc: Global) -> Result<Vec<ViaRow>, NoMemory> {
    let mut vias = Vec::new(alloc);
    vias.push(ViaRow {
        vertex: 1,
        reason: Reason::Optimum,
    })?;
    vias.push(ViaRow {
        vertex: 2,
        reason: Reason::Shared(17),
    })?;
    vias.push(ViaRow {
        vertex: 3,
        reason: Reason::Listed(3),
    })?;
    vias.push(wandering(alloc, 4)?)?;
    vias.push(stretched(alloc, 5, &[7, 8])?)?;
    Ok(vias)
}

/// An optimum, one alternative, and a vertex for each reason.
fn found(alloc: Global) -> Result<Finding, NoMemory> {
    let mut routes = Vec::new(alloc);
    routes.push(CertRoute {
        via: 3,
        length: 22,
        shared: 0,
        plateau: 11,
        rank: 33,
        arcs: Items::from_slice(alloc, &[3, 4, 5])?,
    })?;
    Ok(Finding::Found {
        length: 20,
        arcs: Items::from_slice(alloc, &[1, 2])?,
        routes: Items::from_vec(routes),
        vias: Items::from_vec(vias(alloc)?),
    })
}

/// A certificate with two blocks, and something of each kind.
fn small(alloc: Global) -> Result<Certificate, NoMemory> {
    let second = BlockRow {
        vertex: 2,
        label: 18446744073709551615,
        arc: 1,
    };
    let mut blocks = Vec::new(alloc);
    blocks.push(block(alloc, BlockKind::From, 1, Some(50), &[root_row(1), second])?)?;
    blocks.push(block(alloc, BlockKind::To, 6, Some(0), &[root_row(6)])?)?;
    Ok(Certificate {
        vertices: 6,
        arcs: 8,
        query: CursorQuery::usual(1, 6),
        blocks: Items::from_vec(blocks),
        finding: found(alloc)?,
    })
}

/// Checks the text of a certificate.
fn written(rt: &impl Abort, alloc: Global, certificate: &Certificate, wanted: &[u8]) {
    let mut sink = MemSink::new(alloc, &[]);
    assert!(rt; put_certificate(&mut sink, certificate) == Put::Done);
    assert_eq!(rt; sink.bytes(), wanted);
}

#[test]
fn a_certificate_has_its_lines_in_order(rt: HostRuntime) -> Result<(), Fail> {
    let alloc = rt.alloc();
    written(
        &rt,
        alloc,
        &nothing(alloc)?,
        b"cert 1\ngraph 6 6\nquery 6 1 4/5 1/4 1/4\nfrom 6 all\nrow 6 0 0\nend\nnone\ndone\n",
    );
    written(
        &rt,
        alloc,
        &small(alloc)?,
        b"cert 1\ngraph 6 8\nquery 1 6 4/5 1/4 1/4\n\
            from 1 radius 50\nrow 1 0 0\nrow 2 18446744073709551615 1\nend\n\
            to 6 radius 0\nrow 6 0 0\nend\n\
            optimum 20 1 2\nroute 3 22 0 11 33 3 4 5\n\
            via 1 optimum\nvia 2 shared 17\nvia 3 listed 3\n\
            via 4 local 0 2\nvia 5 stretch 1 3 7 8\ndone\n",
    );
    Ok(())
}

/// A certificate of more bytes than one piece takes.
fn long(alloc: Global) -> Result<Certificate, NoMemory> {
    let mut rows = Vec::new(alloc);
    for vertex in 0..1000 {
        rows.push(root_row(vertex))?;
    }
    let mut certificate = nothing(alloc)?;
    certificate.blocks.push(Block {
        kind: BlockKind::To,
        root: 1,
        radius: None,
        rows: Items::from_vec(rows),
    })?;
    Ok(certificate)
}

/// Checks how many bytes stand in a sink of which these calls fail.
fn cut(rt: &impl Abort, certificate: &Certificate, mut sink: MemSink, least: usize, most: usize) {
    assert!(rt; put_certificate(&mut sink, certificate) == Put::Failed);
    assert_eq!(rt; sink.faults(), 1);
    let bytes = sink.bytes();
    assert!(rt; least <= bytes.len() && bytes.len() <= most);
}

#[test]
fn a_write_that_failed_is_the_last(rt: HostRuntime) -> Result<(), Fail> {
    let alloc = rt.alloc();
    let certificate = long(alloc)?;
    cut(&rt, &certificate, MemSink::new(alloc, &[0, 1]), 0, 0);
    cut(&rt, &certificate, MemSink::new(alloc, &[1, 2]), 7900, 8192);
    cut(&rt, &nothing(alloc)?, MemSink::new(alloc, &[0, 1]), 0, 0);
    Ok(())
}
