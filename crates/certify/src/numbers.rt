//! Numbers of a certificate.

ghost use Rattle.std.specs.Prelude.{◌≡◌, IfOk};

use certificate_text::NumberList;
use road_model::{ArcNo, NoMemory};
use std::alloc::Global;

/// The numbers of arcs, in 8 bytes each.
pub(crate) fn numbers_of(alloc: Global, arcs: &[ArcNo]) -> Result<NumberList, NoMemory>
    ensures { IfOk result (λ numbers. numbers ≡ arcs.now) }
{
    let mut numbers = Vec::new(alloc);
    for arc in arcs {
        numbers.push(arc.number() as u64)?;
    }
    Ok(NumberList::from_vec(numbers))
}

/// The same numbers.
pub(crate) fn copied(alloc: Global, numbers: &[u64]) -> Result<NumberList, NoMemory>
    ensures { IfOk result (λ copies. copies ≡ numbers.now) }
{
    let mut copies = Vec::new(alloc);
    copies.extend_from_slice(numbers)?;
    Ok(NumberList::from_vec(copies))
}
