//! Tables that are emptied at once: each entry has the stamp of when it was set, and an older one counts as none.

ghost use Rattle.std.specs.Prelude.{◌≡◌, ◌≤◌, ◌<◌, ◌^◌, None, Some, All, OnOk, length};
ghost use Rattle.std.specs.List.{slice_index_or, slice_set};
ghost use Rattle.stamped_table.specs.Tables.{AreStamped, AreOlder, IsEmpty};

use road_model::NoMemory;
use std::alloc::Global;
use std::marker::Model;

/// What a place keeps: a value, and the stamp that the table had as it was set. It is public so that a table's user can
/// prove its size.
#[derive(Clone, Copy, Debug)]
pub struct Stamped<T> {
    pub(crate) stamp: u32,
    pub(crate) value: T,
}

/// Values by places, of which some have none. Takes the size of a value and 4 bytes a place.
#[derive(Drop)]
pub struct Table<T> {
    stamp: u32,
    blank: T,
    entries: Vec<Stamped<T>>,
}

impl<T> Model for Table<T> {
    ghost use Rattle.std.specs.Prelude.{List, Option, map};
    ghost use Rattle.std.specs.Coded.{coded_list, coded_option};

    ghost Value = { List (Option T) };

    ghost coded = { coded_list (coded_option T.code) };

    ghost use Rattle.stamped_table.specs.Tables.{told, AreStamped};

    ghost view = { λ t. map (told t.stamp) t.entries.items };

    ghost invariant = { λ t. AreStamped t.stamp t.entries.items };
}

/// The stamp after this one: no entry has it. Where there is none, the entries are let go.
fn next_stamp<T: Copy>(stamp: u32, entries: &mut Vec<Stamped<T>>) -> u32
    requires { AreStamped stamp entries.old.items }
    ensures older { AreOlder result entries.new.items }
    ensures some { 0 < result }
{
    if stamp == u32::MAX {
        entries.clear();
        return 1;
    }
    stamp + 1
}

impl<T: Copy> Table<T> {
    /// No place. `blank` is written where no value is, and never told. Takes no memory.
    pub fn new(alloc: Global, blank: T) -> Table<T>
        ensures { IsEmpty result }
    {
        Table {
            stamp: 0,
            blank,
            entries: Vec::new(alloc),
        }
    }

    /// Takes every value away, and lets the table have so many places or more. Takes constant time, and that of the
    /// places that are new; once in 2^32 times that of all.
    pub fn empty(&mut self, places: usize) -> Result<(), NoMemory>
        ensures empty { IsEmpty self.new }
        ensures places { OnOk result (places ≤ length self.new) }
    {
        self.stamp = next_stamp(self.stamp, &mut self.entries);
        if self.entries.len() < places {
            let blank = Stamped {
                stamp: 0,
                value: self.blank,
            };
            self.entries.resize(places, blank)?;
        }
        Ok(())
    }

    /// How many places it has.
    pub fn len(&self) -> usize
        ensures { result ≡ length self.now }
    {
        self.entries.len()
    }

    /// The value at a place, if it has one.
    #[inline]
    pub fn get(&self, place: usize) -> Option<T>
        ensures { result ≡ slice_index_or self.now place None }
    {
        let Some(entry) = self.entries.as_slice().get(place) else {
            return None;
        };
        if entry.stamp == self.stamp {
            Some(entry.value)
        } else {
            None
        }
    }

    /// Sets the value at a place, if there is such a place.
    #[inline]
    pub fn set(&mut self, place: usize, value: T)
        ensures { self.new ≡ slice_set self.old place (Some value) }
    {
        if place < self.entries.len() {
            self.entries[place] = Stamped {
                stamp: self.stamp,
                value,
            };
        }
    }
}
