ghost use Rattle.std.specs.Prelude.{◌≡◌, IfOk, IsOk};

use hierarchy_build::NO_LINK;
use road_model::NoMemory;
use std::alloc::Global;
use std::marker::Model;

/// The labels of an oracle, kept from one oracle to the next. To a clause it is the number of ranks that it is laid out
/// for.
///
/// It keeps 16 bytes a rank.
#[derive(Drop)]
pub struct ClimbMemory {
    pub(crate) forward: Vec<u64>,
    pub(crate) backward: Vec<u64>,
}

impl Model for ClimbMemory {
    ghost use Rattle.std.specs.Prelude.{ℕ, length};
    ghost use Rattle.hierarchy_query.specs.Asks.{AreBlank};

    ghost Value = { ℕ };

    ghost view = { λ m. length m.forward.items };

    ghost invariant = { λ m. AreBlank (length m.forward.items) m.forward.items m.backward.items };
}

impl ClimbMemory {
    /// A memory for no rank yet. Takes no memory itself.
    pub fn new(alloc: Global) -> ClimbMemory
        ensures { result ≡ 0 }
    {
        ClimbMemory {
            forward: Vec::new(alloc),
            backward: Vec::new(alloc),
        }
    }

    /// The same laid out for so many ranks. Where it is already, it takes constant time and no memory.
    pub(crate) fn prepared(self, alloc: Global, ranks: usize) -> Result<ClimbMemory, NoMemory>
        ensures ranks { IfOk result (λ m. m ≡ ranks) }
        ensures kept { self ≡ ranks → IsOk result }
    {
        if self.forward.len() == ranks {
            return Ok(self);
        }
        let forward = vec![in alloc; NO_LINK; ranks]?;
        let backward = vec![in alloc; NO_LINK; ranks]?;
        Ok(ClimbMemory { forward, backward })
    }
}
