ghost use Rattle.std.specs.Prelude.{◌≡◌};
ghost use Rattle.road_model.specs.declared.change.ChangeFault.TheVariants.{NoMemory};

use crate::{ArcNo, Items};
use std::alloc::{AllocError, AllocFailed};
use std::error::Error;
use std::fmt;

/// A new length for an arc.
#[derive(Clone, Copy, Debug, PartialEq, Eq)]
pub struct Change {
    pub arc: ArcNo,
    pub length: u64,
}

/// Changes that are published together, in their order.
pub type Batch = Items<Change>;

/// Why a batch was refused.
#[derive(Clone, Copy, Debug, PartialEq, Eq)]
pub enum ChangeFault {
    /// The first failing change names an arc that isn't there.
    ArcRange,
    /// The first failing change has a length outside 1 to 4294967295.
    LengthRange,
    /// The newest version is the last that there may be.
    Full,
    /// Memory was refused.
    NoMemory,
}

impl fmt::Display for ChangeFault {
    ghost use Rattle.std.specs.Prelude.{Some};
    ghost use Rattle.road_model.specs.Messages.{change_text};

    ghost output = { λ fault. Some (change_text fault) };

    fn fmt<W: fmt::Write>(&self, f: &mut fmt::Formatter<W>) -> fmt::Result {
        f.write_str(match self {
            ChangeFault::ArcRange => "the arc is outside the graph",
            ChangeFault::LengthRange => "the length is outside 1 to 4294967295",
            ChangeFault::Full => "there is no further version",
            ChangeFault::NoMemory => "out of memory",
        })
    }
}

impl Error for ChangeFault {}

impl From<AllocError> for ChangeFault {
    ghost from_gives = { λ _ e. e ≡ NoMemory };

    fn from(_error: AllocError) -> ChangeFault {
        ChangeFault::NoMemory
    }
}

impl<T: Drop> From<AllocFailed<T>> for ChangeFault {
    ghost from_gives = { λ _ e. e ≡ NoMemory };

    fn from(_error: AllocFailed<T>) -> ChangeFault {
        ChangeFault::NoMemory
    }
}
