ghost use Rattle.std.specs.Prelude.{◌≡◌, [], ◌∷◌, ◌++◌, length, slice_get, option_copied, IfOk};

use road_model::NoMemory;
use std::alloc::Global;
use std::marker::Model;
use std::sync::Arc;

/// A list whose items are kept once and shared with other lists, each by a handle of 8 bytes. To a clause it is the list
/// of the items.
#[derive(Drop)]
pub struct SharedItems<T> {
    handles: Vec<Arc<T, Global>>,
}

impl<T> Model for SharedItems<T> {
    ghost use Rattle.std.specs.Prelude.{List, map};
    ghost use Rattle.std.specs.Arc.{arc_value};
    ghost use Rattle.std.specs.Coded.{coded_list};

    ghost Value = { List T };

    ghost coded = { coded_list T.code };

    ghost view = { λ s. map arc_value s.handles.items };
}

impl<T> SharedItems<T> {
    /// No item. Takes no memory.
    pub fn new(alloc: Global) -> SharedItems<T>
        ensures { result ≡ [] }
    {
        SharedItems {
            handles: Vec::new(alloc),
        }
    }

    pub fn len(&self) -> usize
        ensures { result ≡ length self.now }
    {
        self.handles.len()
    }

    /// The item at a place, counted from 0; none after the last.
    pub fn get(&self, place: usize) -> Option<&T>
        ensures { option_copied result ≡ slice_get self.now place }
    {
        match self.handles.get(place) {
            Some(handle) => Some(&**handle),
            None => None,
        }
    }
}

impl<T: Drop> SharedItems<T> {
    /// The list with one more item at its end; this one stays as it is. It copies the handles, not the items.
    pub fn with(&self, alloc: Global, item: Arc<T, Global>) -> Result<SharedItems<T>, NoMemory>
        ensures { IfOk result (λ s. s ≡ self.now ++ item.value ∷ []) }
    {
        let mut handles = Vec::with_capacity(alloc, self.handles.len().saturating_add(1))?;
        for handle in &self.handles {
            let copy = Arc::try_clone(handle)?;
            handles.push(copy)?;
        }
        handles.push(item)?;
        Ok(SharedItems { handles })
    }
}
