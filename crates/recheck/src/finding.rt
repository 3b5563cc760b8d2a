//! The checks of what a certificate says was found.

ghost use Rattle.std.specs.Prelude.{◌≡◌, ◌↔◌, ℕ, IfOk, IsTrue, MatchOption};
ghost use Rattle.certificate_text.specs.declared.certificate.BlockKind.TheVariants as kind;
ghost use Rattle.recheck.specs.Rows.{block_of, rows_in};
ghost use Rattle.recheck.specs.Standing.{AllStand, IsRising};
ghost use Rattle.recheck.specs.Paths.{IsBest, ground_of};
ghost use Rattle.recheck.specs.Checks.{FindsFirst, IsCutOff, IsQuery, finding_checks};

use crate::basis::Basis;
use crate::block_table::BlockTable;
use crate::found::found_fault;
use crate::lines::fault;
use crate::rows::find_row;
use certificate_text::{BlockKind, CertFault, CertKind, Finding};
use forward_star::Star;
use road_model::{NoMemory, Query};
use std::alloc::Global;

/// The block from the source has no limit, and the target has no row in it.
fn is_cut_off(query: &Query, table: &BlockTable<'_>) -> bool
    requires { (root : ℕ) → IsRising (rows_in (block_of table.now kind.From root)) }
    ensures { IsTrue result ↔ IsCutOff query.now table.now }
{
    let Some(block) = table.find(BlockKind::From, query.from.number() as u64) else {
        return false;
    };
    match block.radius {
        Some(_) => false,
        None => match find_row(block.rows.as_slice(), query.to.number() as u64) {
            Some(_) => false,
            None => true,
        },
    }
}

/// What the checks of a path and its alternatives lean on, if there are a block from the source and one to the target.
fn basis_of<'a>(
    star: &'a Star,
    query: Query,
    table: &'a BlockTable<'a>,
    best: u64,
    optimum: &'a [u64],
) -> Option<Basis<'a>>
    requires asks { IsQuery star.now query }
    requires stand { AllStand star.now table.now }
    ensures { MatchOption result (IsBest (ground_of star.now query table.now best optimum.now) → ⊥) (λ b. b ≡ ground_of star.now query table.now best optimum.now) }
{
    star.within_limits();
    let from = table.find(BlockKind::From, query.from.number() as u64)?;
    let to = table.find(BlockKind::To, query.to.number() as u64)?;
    Some(Basis {
        star,
        query,
        blocks: table,
        from_rows: from.rows.as_slice(),
        to_rows: to.rows.as_slice(),
        best,
        optimum,
    })
}

/// The first check that what was found, from this line on, fails, where the blocks passed theirs.
pub(crate) fn finding_fault(
    alloc: Global,
    star: &Star,
    query: Query,
    table: &BlockTable<'_>,
    line: u64,
    finding: &Finding,
) -> Result<Option<CertFault>, NoMemory>
    requires asks { IsQuery star.now query }
    requires stand { AllStand star.now table.now }
    ensures { IfOk result (λ o. FindsFirst (finding_checks star.now query table.now line finding.now) o) }
{
    match finding {
        Finding::Nothing => {
            if is_cut_off(&query, table) {
                return Ok(None);
            }
            Ok(Some(fault(line, CertKind::NoPath)))
        }
        Finding::Found {
            length,
            arcs,
            routes,
            vias,
        } => {
            let Some(basis) = basis_of(star, query, table, *length, arcs.as_slice()) else {
                return Ok(Some(fault(line, CertKind::Optimum)));
            };
            found_fault(alloc, &basis, line, routes.as_slice(), vias.as_slice())
        }
    }
}
