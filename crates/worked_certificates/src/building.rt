//! Parts of certificates, and what the rechecker says of one.

use certificate_text::{Block, BlockKind, BlockRow, CertFault, CertKind, Certificate};
use recheck::{Checked, recheck};
use road_model::{Items, NoMemory};
use std::alloc::Global;
use std::process::Abort;
use std::test::Fail;
use worked_graphs::{A, star_of};

/// Rows of a block: a vertex, its label and its arc.
pub type Rows = &'static [(u64, u64, u64)];

/// A block of these rows.
pub fn block(
    alloc: Global,
    kind: BlockKind,
    root: u64,
    radius: Option<u64>,
    rows: Rows,
) -> Result<Block, NoMemory> {
    let mut list = Items::new(alloc);
    for row in rows {
        let (vertex, label, arc) = *row;
        list.push(BlockRow { vertex, label, arc })?;
    }
    Ok(Block {
        kind,
        root,
        radius,
        rows: list,
    })
}

// What a certificate is found to be for the graph `A`.
fn checked(alloc: Global, certificate: &Certificate) -> Result<Checked, Fail> {
    let star = star_of(alloc, 6, A)?;
    Ok(recheck(alloc, &star, certificate)?)
}

/// The certificate is right, and lists so many paths.
pub fn lists<R: Abort>(
    rt: &R,
    alloc: Global,
    certificate: &Certificate,
    listed: u64,
) -> Result<(), Fail> {
    let found = checked(alloc, certificate)?;
    assert_eq!(rt; found, Checked::Yes { listed });
    Ok(())
}

/// The certificate fails this check on this line.
pub fn fails<R: Abort>(
    rt: &R,
    alloc: Global,
    certificate: &Certificate,
    line: u64,
    kind: CertKind,
) -> Result<(), Fail> {
    let found = checked(alloc, certificate)?;
    assert_eq!(rt; found, Checked::No(CertFault { line, kind }));
    Ok(())
}
