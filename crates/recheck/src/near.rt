//! The vertices near enough to both ends.

ghost use Rattle.std.specs.Prelude.{◌↔◌, IsTrue, IfOk};
ghost use Rattle.recheck.specs.Nears.{AreNears};
ghost use Rattle.recheck.specs.Paths.{IsNear};

use crate::basis::Basis;
use crate::measures::stretches_wide;
use crate::rows::find_row;
use road_model::NoMemory;
use std::alloc::Global;

/// Whether a vertex has a row in both blocks, and its two labels sum to at most 1 + epsilon times the optimum's length.
pub(crate) fn is_near(basis: &Basis, v: u64) -> bool
    ensures { IsTrue result ↔ IsNear basis.now v }
{
    let Some(near) = find_row(basis.from_rows, v) else {
        return false;
    };
    let Some(far) = find_row(basis.to_rows, v) else {
        return false;
    };
    let sum = near.label as u128 + far.label as u128;
    stretches_wide(&basis.query.epsilon, sum, basis.best)
}

/// The near vertices, rising. Time: the rows of the block from the source, each with the logarithm of the rows.
pub(crate) fn near_vertices(alloc: Global, basis: &Basis) -> Result<Vec<u64>, NoMemory>
    ensures { IfOk result (λ vs. AreNears basis.now vs.items) }
{
    let mut vertices = Vec::new(alloc);
    for row in basis.from_rows {
        if is_near(basis, row.vertex) {
            vertices.push(row.vertex)?;
        }
    }
    Ok(vertices)
}
