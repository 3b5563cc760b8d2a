ghost use Rattle.std.specs.Prelude.{◌≡◌, ◌<◌, [], length, slice_set, IfOk, OnOk};
ghost use Rattle.hierarchy_build.specs.Waits.{waiting, nothing_waits, IsPut};

use road_model::NoMemory;
use std::alloc::Global;
use std::marker::Model;
use std::mem::replace;

/// The ranks that wait, at each rank, for its run to be laid out. To a clause it is the list of these lists.
#[derive(Drop)]
pub(crate) struct Pending {
    lists: Vec<Vec<u32>>,
}

impl Model for Pending {
    ghost use Rattle.std.specs.Prelude.{ℕ, List, map};

    ghost Value = { List (List ℕ) };

    ghost view = { λ p. map (λ v. v.items) p.lists.items };
}

impl Pending {
    /// Nothing waits at any rank.
    pub fn new(alloc: Global, ranks: usize) -> Result<Pending, NoMemory>
        ensures { IfOk result (λ p. p ≡ nothing_waits ranks) }
    {
        let mut lists = Vec::with_capacity(alloc, ranks)?;
        'fill: while lists.len() < ranks {
            lists.push(Vec::new(alloc))?;
        }
        Ok(Pending { lists })
    }

    /// Lets a rank wait at another.
    pub fn put(&mut self, at: usize, rank: u32) -> Result<(), NoMemory>
        requires { at < length self.old }
        ensures { OnOk result (IsPut at rank self.old self.new) }
    {
        self.lists[at].push(rank)?;
        Ok(())
    }

    /// Takes out what waits at a rank.
    pub fn take(&mut self, alloc: Global, at: usize) -> Vec<u32>
        requires { at < length self.old }
        ensures taken { result.items ≡ waiting self.old at }
        ensures rest { self.new ≡ slice_set self.old at [] }
    {
        replace(&mut self.lists[at], Vec::new(alloc))
    }
}
