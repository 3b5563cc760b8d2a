//! The least hills from one rank, each worked out when it is first asked for.

ghost use Rattle.std.specs.Prelude.{◌≡◌, ◌<◌, ◌≤◌, ◌+◌, ℕ, IfOk, OnOk, length, slice_index};
ghost use Rattle.hierarchy_build.specs.Runs.{InSpan, IsUp, IsShape, HasPlace};
ghost use Rattle.hierarchy_build.specs.Lengths.{no_link};
ghost use Rattle.hierarchy_query.specs.Asks.{up_links, down_links};
ghost use Rattle.hierarchy_query.specs.Climbs.{CanRelax, IsLeastHill};
ghost use Rattle.hierarchy_query.specs.KnownHills.{IsKnown, AreUnknown, AreForgotten, IsLonger, IsStacked, IsLeastOver, AreLeast, AreHills};

use crate::climb::{clear, climb};
use crate::hill_memory::{HillMemory, UNKNOWN};
use hierarchy_build::{Hierarchy, Links, NO_LINK};
use road_model::NoMemory;

/// The lengths of the least hills from one rank, as far as they were asked for.
///
/// It keeps 16 bytes a rank, and 4 bytes a rank whose length is worked out.
#[derive(Drop)]
pub(crate) struct LeastHills {
    pub(crate) from: u32,
    // The least rise to each rank.
    rising: Vec<u64>,
    // The least hill to each rank, as far as it is known.
    least: Vec<u64>,
    // The known ranks; after an `Err` others too, since the list isn't cut back.
    found: Vec<u32>,
}

// Makes the listed ranks unknown again.
fn forget(found: &[u32], least: &mut [u64])
    requires ranks { (k : ℕ) → k < length found.now → slice_index found.now k < length least.old }
    requires listed { (x : ℕ) → x < length least.old → IsKnown least.old x → HasPlace found.now 0 x }
    ensures { AreUnknown (length least.old) least.new }
{
    for x in found {
        least[*x as usize] = UNKNOWN;
    }
}

// Lists a rank and those on the way up from it, as far as they aren't known.
fn stack(
    first: &[u32],
    head: &[u32],
    least: &[u64],
    x: u32,
    found: &mut Vec<u32>,
) -> Result<(), NoMemory>
    requires shape { IsShape (length least.now) first.now head.now }
    requires rank { x < length least.now }
    requires closed { (y z : ℕ) → y < length least.now → IsKnown least.now y → IsUp first.now head.now y z → IsKnown least.now z }
    requires ranks { (k : ℕ) → k < length found.old.items → slice_index found.old.items k < length least.now }
    ensures longer { IsLonger (length least.now) found.old.items found.new.items }
    ensures stacked { OnOk result (IsStacked first.now head.now least.now x (length found.old.items) found.new.items) }
{
    let mut y = x;
    'up: while least[y as usize] > NO_LINK {
        found.push(y)?;
        let run = first[y as usize];
        if run == first[y as usize + 1] {
            return Ok(());
        }
        y = head[run as usize];
    }
    Ok(())
}

// The lesser of the least rise to a rank and of the least hills that come down to it by one of its links.
fn least_over(down: &Links, x: usize, rise: u64, least: &[u64]) -> u64
    requires can { CanRelax (length least.now) down.now x }
    requires low { rise ≤ no_link }
    requires known { (k : ℕ) → InSpan down.now.first x k → IsKnown least.now (slice_index down.now.head k) }
    ensures { IsLeastOver down.now x rise least.now result }
{
    let first = down.first.as_slice();
    let head = down.head.as_slice();
    let lengths = down.length.as_slice();
    let mut best = rise;
    for k in first[x] as usize..first[x + 1] as usize {
        best = best.min(least[head[k] as usize] + lengths[k]);
    }
    best
}

impl LeastHills {
    /// No hill from this rank worked out yet, in a memory that is laid out for these ranks. It takes the time of the
    /// links above the rank, and no memory.
    pub(crate) fn in_memory(memory: HillMemory, hierarchy: &Hierarchy, from: u32) -> LeastHills
        requires rank { from < length hierarchy.now.shape.order }
        requires ranks { memory ≡ length hierarchy.now.shape.order }
        ensures hills { AreHills (length hierarchy.now.shape.order) hierarchy.now result }
        ensures from { result.from ≡ from }
    {
        let HillMemory {
            mut rising,
            least,
            found,
        } = memory;
        let shape = hierarchy.shape();
        climb(
            shape.first.as_slice(),
            shape.head.as_slice(),
            hierarchy.up_links(),
            from as usize,
            &mut rising,
        );
        LeastHills {
            from,
            rising,
            least,
            found,
        }
    }

    // Makes every rank unknown again, and takes the rise from the rank back.
    fn take_back(&mut self, hierarchy: &Hierarchy)
        requires { AreHills (length hierarchy.now.shape.order) hierarchy.now self.old }
        ensures { AreForgotten (length hierarchy.now.shape.order) self.new.rising.items self.new.least.items self.new.found.items }
    {
        let shape = hierarchy.shape();
        let first = shape.first.as_slice();
        let head = shape.head.as_slice();
        forget(&self.found, &mut self.least);
        self.found.clear();
        clear(first, head, self.from as usize, &mut self.rising);
    }

    /// Its memory, for other hills. It takes the time of what was worked out and of the links above the rank.
    pub(crate) fn into_memory(self, hierarchy: &Hierarchy) -> HillMemory
        requires { AreHills (length hierarchy.now.shape.order) hierarchy.now self }
        ensures { result ≡ length hierarchy.now.shape.order }
    {
        let mut hills = self;
        hills.take_back(hierarchy);
        let LeastHills {
            from: _,
            rising,
            least,
            found,
        } = hills;
        HillMemory {
            rising,
            least,
            found,
        }
    }

    /// The same for another rank. It takes the time of what was worked out, and of the links above both ranks.
    pub(crate) fn restart(&mut self, hierarchy: &Hierarchy, from: u32)
        requires rank { from < length hierarchy.now.shape.order }
        requires hills { AreHills (length hierarchy.now.shape.order) hierarchy.now self.old }
        ensures hills { AreHills (length hierarchy.now.shape.order) hierarchy.now self.new }
        ensures from { self.new.from ≡ from }
    {
        self.take_back(hierarchy);
        let shape = hierarchy.shape();
        climb(
            shape.first.as_slice(),
            shape.head.as_slice(),
            hierarchy.up_links(),
            from as usize,
            &mut self.rising,
        );
        self.from = from;
    }

    // Works out the ranks that are listed from a place on, the last one first: what stands above a rank is known by
    // then.
    fn work_out(&mut self, hierarchy: &Hierarchy, from: usize, x: u32)
        requires hills { AreHills (length hierarchy.now.shape.order) hierarchy.now self.old }
        requires inside { from ≤ length self.old.found.items }
        requires stacked { IsStacked hierarchy.now.shape.first hierarchy.now.shape.head self.old.least.items x from self.old.found.items }
        ensures hills { AreHills (length hierarchy.now.shape.order) hierarchy.now self.new }
        ensures known { IsKnown self.new.least.items x }
        ensures from { self.new.from ≡ self.old.from }
    {
        let _ = hierarchy.shape();
        let down = hierarchy.down_links();
        let mut place = self.found.len();
        'back: while place > from {
            place -= 1;
            let y = self.found[place] as usize;
            let best = least_over(down, y, self.rising[y], &self.least);
            self.least[y] = best;
        }
    }

    /// The length of the least hill to a rank, `NO_LINK` where there is none. It takes the time of the links of the
    /// ranks above it that aren't worked out yet; an `Err` leaves every length as it was.
    pub(crate) fn length(&mut self, hierarchy: &Hierarchy, x: u32) -> Result<u64, NoMemory>
        requires rank { x < length hierarchy.now.shape.order }
        requires hills { AreHills (length hierarchy.now.shape.order) hierarchy.now self.old }
        ensures hills { AreHills (length hierarchy.now.shape.order) hierarchy.now self.new }
        ensures least { IfOk result (λ best. IsLeastHill (up_links (length hierarchy.now.shape.order) hierarchy.now) (down_links (length hierarchy.now.shape.order) hierarchy.now) self.old.from x best) }
        ensures from { self.new.from ≡ self.old.from }
    {
        let shape = hierarchy.shape();
        let listed = self.found.len();
        stack(
            shape.first.as_slice(),
            shape.head.as_slice(),
            &self.least,
            x,
            &mut self.found,
        )?;
        self.work_out(hierarchy, listed, x);
        Ok(self.least[x as usize])
    }
}
