//! The links between the vertices that one path leads through.

ghost use Rattle.recheck.specs.Runs.{IsLinked, IsLinkedBack, IsStep};
ghost use Rattle.recheck.specs.Standing.{IsSound};

use crate::arcs::find_arc;
use crate::basis::Basis;
use crate::rows::find_row;

/// The vertex that a link leads to from `u`. Takes the logarithm of the rows.
pub(crate) fn next_of(basis: &Basis, u: u64) -> Option<u64>
    ensures step { IsStep (IsLinked basis.now) u result }
    ensures sound { IsSound basis.now }
{
    basis.star.within_limits();
    let row = find_row(basis.to_rows, u)?;
    let arc = find_arc(basis.star, row.arc)?;
    let next = arc.head.number() as u64;
    let beyond = find_row(basis.from_rows, next)?;
    if beyond.arc != row.arc {
        return None;
    }
    Some(next)
}

/// The vertex that a link leads from to `v`. Takes the logarithm of the rows.
pub(crate) fn previous_of(basis: &Basis, v: u64) -> Option<u64>
    ensures step { IsStep (IsLinkedBack basis.now) v result }
    ensures sound { IsSound basis.now }
{
    basis.star.within_limits();
    let row = find_row(basis.from_rows, v)?;
    let arc = find_arc(basis.star, row.arc)?;
    let previous = arc.tail.number() as u64;
    let onward = find_row(basis.to_rows, previous)?;
    if onward.arc != row.arc {
        return None;
    }
    Some(previous)
}
