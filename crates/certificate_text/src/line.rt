//! What one line says.

ghost use Rattle.std.specs.Prelude.{◌≡◌};
ghost use Rattle.certificate_text.specs.declared.line.Refusal.TheVariants.{NoMemory};

use crate::certificate::{BlockKind, BlockRow, CertRoute, NumberList, ViaRow};
use road_model::CursorQuery;
use std::alloc::{AllocError, AllocFailed};

/// Why a line wasn't taken.
#[derive(Clone, Copy, Debug, PartialEq, Eq)]
pub(crate) enum Refusal {
    /// It can't stand in its place.
    Wrong,
    /// Memory was refused.
    NoMemory,
}

impl From<AllocError> for Refusal {
    ghost from_gives = { λ _ e. e ≡ NoMemory };

    fn from(_error: AllocError) -> Refusal {
        Refusal::NoMemory
    }
}

impl<T: Drop> From<AllocFailed<T>> for Refusal {
    ghost from_gives = { λ _ e. e ≡ NoMemory };

    fn from(_error: AllocFailed<T>) -> Refusal {
        Refusal::NoMemory
    }
}

/// A line that was read.
#[derive(Debug, Drop)]
pub(crate) enum Said {
    Version,
    Counts(u64, u64),
    Asks(CursorQuery),
    Heads(BlockKind, u64, Option<u64>),
    Row(BlockRow),
    End,
    NoneFound,
    Optimum(u64, NumberList),
    Route(CertRoute),
    Via(ViaRow),
    Done,
}
