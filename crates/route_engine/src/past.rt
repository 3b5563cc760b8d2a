ghost use Rattle.std.specs.Prelude.{◌≡◌, ◌<◌, ◌+◌, [], ◌∷◌, ◌++◌, length, slice_get, option_copied, IfOk};
ghost use Rattle.road_model.specs.declared.planner.TheConstants.{LAST_VERSION};

use crate::shared_items::SharedItems;
use road_model::{Batch, Change, NoMemory};
use std::alloc::Global;
use std::marker::Model;
use std::sync::Arc;

/// How many batches a full chunk has.
const CHUNK: usize = 1024;

/// The batches that were published, the first at the head. To a clause it is their list.
///
/// Each batch is kept once, and shared by all later pasts. They stand in chunks of 1024, and the full ones are shared
/// too: a past of its own has a list of handles for the last chunk, at most 8 KB.
#[derive(Drop)]
pub struct Past {
    full: Arc<SharedItems<SharedItems<Batch>>, Global>,
    last: SharedItems<Batch>,
}

impl Model for Past {
    ghost use Rattle.std.specs.Prelude.{List};
    ghost use Rattle.road_model.specs.declared.change.Change.{Change};
    ghost use Rattle.route_engine.specs.Past.{joined, AreChunks};

    ghost Value = { List (List Change) };

    ghost view = { λ p. joined p.full.value p.last };

    ghost invariant = { λ p. AreChunks p.full.value p.last };
}

impl Past {
    /// No batch.
    pub fn new(alloc: Global) -> Result<Past, NoMemory>
        ensures { IfOk result (λ p. p ≡ []) }
    {
        let full = Arc::new(alloc, SharedItems::new(alloc))?;
        let last = SharedItems::new(alloc);
        Ok(Past { full, last })
    }

    pub fn len(&self) -> usize
        ensures count { result ≡ length self.now }
        ensures few { length self.now < LAST_VERSION }
    {
        self.full.len() * CHUNK + self.last.len()
    }

    /// The batch at a place, counted from 0; none after the last. It takes constant time.
    pub fn get(&self, place: usize) -> Option<&Batch>
        ensures { option_copied result ≡ slice_get self.now place }
    {
        match self.full.get(place / CHUNK) {
            Some(chunk) => chunk.get(place % CHUNK),
            None => self.last.get(place - self.full.len() * CHUNK),
        }
    }

    /// The past with one more batch; this one stays as it is.
    ///
    /// It copies the batch, at most 1023 handles, and each 1024th time 8 bytes more a full chunk.
    pub fn with(&self, alloc: Global, changes: &[Change]) -> Result<Past, NoMemory>
        requires { length self.now + 1 < LAST_VERSION }
        ensures { IfOk result (λ p. p ≡ self.now ++ changes.now ∷ []) }
    {
        let batch = Arc::new(alloc, Batch::from_slice(alloc, changes)?)?;
        let last = self.last.with(alloc, batch)?;
        if last.len() < CHUNK {
            let full = Arc::try_clone(&self.full)?;
            return Ok(Past { full, last });
        }
        let full = self.full.with(alloc, Arc::new(alloc, last)?)?;
        let full = Arc::new(alloc, full)?;
        let last = SharedItems::new(alloc);
        Ok(Past { full, last })
    }
}
