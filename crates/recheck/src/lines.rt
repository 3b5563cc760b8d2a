//! Numbers of lines, and the faults there.

ghost use Rattle.std.specs.Prelude.{◌≡◌, ◌+◌, IfOk};
ghost use Rattle.recheck.specs.Checks.{fault_at};

use certificate_text::{CertFault, CertKind};
use road_model::NoMemory;
use std::alloc::AllocError;

/// The line so many after another. No certificate that memory holds has 2^64 lines, so a number that doesn't fit is told
/// as out of memory.
pub(crate) fn later_line(line: u64, by: u64) -> Result<u64, NoMemory>
    ensures { IfOk result (λ n. n ≡ line + by) }
{
    match line.checked_add(by) {
        Some(next) => Ok(next),
        None => Err(AllocError),
    }
}

/// The fault of a line that fails a check.
pub(crate) fn fault(line: u64, kind: CertKind) -> CertFault
    ensures { result ≡ fault_at line kind }
{
    CertFault { line, kind }
}
