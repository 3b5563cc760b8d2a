//! The recheck of a certificate.

ghost use Rattle.std.specs.Prelude.{◌≡◌, ◌↔◌, IfOk, IsTrue};
ghost use Rattle.recheck.specs.Checks.{FindsFirst, HasCounts, IsChecked, checks, listed_in};
ghost use Rattle.recheck.specs.Truth.{TellsTruth};

use crate::block_table::BlockTable;
use crate::blocks::{blocks_fault, line_after};
use crate::finding::finding_fault;
use crate::lines::fault;
use crate::query::query_in;
use certificate_text::{CertFault, CertKind, Certificate, Finding};
use forward_star::Star;
use road_model::NoMemory;
use std::alloc::Global;

/// What a certificate was found to be.
#[derive(Clone, Copy, Debug, PartialEq, Eq)]
pub enum Checked {
    /// It is right. `listed` counts the optimum and the routes, and is 0 where there is no path.
    Yes { listed: u64 },
    /// Its first line that isn't right, and the first check that this line fails.
    No(CertFault),
}

/// The numbers of vertices and arcs are the graph's.
fn has_counts(graph: &Star, cert: &Certificate) -> bool
    ensures { IsTrue result ↔ HasCounts graph.now cert.now }
{
    cert.vertices == graph.vertices() as u64 && cert.arcs == graph.arc_count() as u64
}

/// The first check that a certificate fails.
fn first_fault(
    alloc: Global,
    graph: &Star,
    cert: &Certificate,
) -> Result<Option<CertFault>, NoMemory>
    ensures { IfOk result (λ o. FindsFirst (checks graph.now cert.now) o) }
{
    if !has_counts(graph, cert) {
        return Ok(Some(fault(2, CertKind::Graph)));
    }
    let Some(query) = query_in(graph, &cert.query) else {
        return Ok(Some(fault(3, CertKind::Query)));
    };
    let blocks = cert.blocks.as_slice();
    let table = BlockTable::build(alloc, blocks)?;
    match blocks_fault(alloc, graph, &table, 4) {
        Err(e) => return Err(e),
        Ok(Some(fault)) => return Ok(Some(fault)),
        Ok(None) => {}
    }
    let line = line_after(4, blocks)?;
    finding_fault(alloc, graph, query, &table, line, &cert.finding)
}

/// How many paths are listed: the optimum and the routes.
fn listed_by(finding: &Finding) -> u64
    ensures { result ≡ listed_in finding.now }
{
    match finding {
        Finding::Nothing => 0,
        Finding::Found { routes, .. } => routes.as_slice().len() as u64 + 1,
    }
}

/// Whether a certificate is right for a graph, and if not, where.
///
/// A row of a block takes a look-up for each arc of its vertex: the logarithm of the rows, also where they don't rise. A
/// route takes one for each two places of its path, one before its via vertex and one after it, and a via takes one for
/// each arc of the path through it. It takes memory linear in the blocks, and in the near vertices and a path; an `Err`
/// tells only that memory was refused.
pub fn recheck(alloc: Global, graph: &Star, cert: &Certificate) -> Result<Checked, NoMemory>
    ensures exactly { IfOk result (λ x. IsChecked graph.now cert.now x) }
    ensures truth { IfOk result (λ x. TellsTruth graph.now cert.now x) }
{
    graph.within_limits();
    match first_fault(alloc, graph, cert) {
        Err(e) => Err(e),
        Ok(Some(fault)) => Ok(Checked::No(fault)),
        Ok(None) => Ok(Checked::Yes {
            listed: listed_by(&cert.finding),
        }),
    }
}
