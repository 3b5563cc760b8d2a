ghost use Rattle.std.specs.Prelude.{◌≡◌, IfOk, IsOk};

use hierarchy_build::NO_LINK;
use road_model::NoMemory;
use std::alloc::Global;
use std::marker::Model;

/// What stands in the place of a length that isn't worked out yet.
pub(crate) const UNKNOWN: u64 = 18446744073709551615;

/// The memory of distances from one source, kept from one source to the next, also over another hierarchy. To a clause
/// it is the number of ranks that it is laid out for.
///
/// It keeps 16 bytes a rank, and 4 bytes for each of the most ranks that were worked out for one source.
#[derive(Drop)]
pub struct HillMemory {
    pub(crate) rising: Vec<u64>,
    pub(crate) least: Vec<u64>,
    pub(crate) found: Vec<u32>,
}

impl Model for HillMemory {
    ghost use Rattle.std.specs.Prelude.{ℕ, length};
    ghost use Rattle.hierarchy_query.specs.KnownHills.{AreForgotten};

    ghost Value = { ℕ };

    ghost view = { λ m. length m.rising.items };

    ghost invariant = { λ m. AreForgotten (length m.rising.items) m.rising.items m.least.items m.found.items };
}

impl HillMemory {
    /// A memory for no rank yet. Takes no memory itself.
    pub fn new(alloc: Global) -> HillMemory
        ensures { result ≡ 0 }
    {
        HillMemory {
            rising: Vec::new(alloc),
            least: Vec::new(alloc),
            found: Vec::new(alloc),
        }
    }

    /// The same laid out for so many ranks. Where it is already, it takes constant time and no memory.
    pub(crate) fn prepared(self, alloc: Global, ranks: usize) -> Result<HillMemory, NoMemory>
        ensures ranks { IfOk result (λ m. m ≡ ranks) }
        ensures kept { self ≡ ranks → IsOk result }
    {
        if self.rising.len() == ranks {
            return Ok(self);
        }
        let rising = vec![in alloc; NO_LINK; ranks]?;
        let least = vec![in alloc; UNKNOWN; ranks]?;
        Ok(HillMemory {
            rising,
            least,
            found: Vec::new(alloc),
        })
    }
}
