//! The versions of a graph that were published.

ghost use Rattle.std.specs.Prelude.{◌≡◌, ◌≤◌, [], None, IfOk, IfErr, OnOk, OnErr};
ghost use Rattle.road_model.specs.Versions.{IsRefusedAs};
ghost use Rattle.desk_core.specs.Histories.{fault_in, graph_in, grown, newest_in};

use road_model::{Change, ChangeFault, NoMemory, Pinned, Version};
use std::alloc::Global;
use std::marker::Model;
use std::mem::replace;
use std::sync::Arc;
use std::thread::Threads;

/// The versions of a graph, each of which is kept. To a clause it is a `History`.
#[derive(Drop)]
pub struct Versions<V: Version> {
    /// Those before the newest, version 1 first.
    older: Vec<Pinned<V>>,
    newest: Pinned<V>,
}

impl<V: Version> Model for Versions<V> {
    ghost use Rattle.desk_core.specs.Histories.{History, AreVersions};

    ghost Value = { History };

    ghost view = { λ v. record { base = V.base v.newest; batches = V.history v.newest } };

    ghost invariant = { λ v. AreVersions V.base V.history v.older.items v.newest };
}

impl<V: Version + Drop> Versions<V> {
    /// Version 1 alone.
    pub fn start(alloc: Global, base: V) -> Result<Versions<V>, NoMemory>
        requires { V.history base ≡ [] }
        ensures { IfOk result (λ v. v ≡ record { base = V.base base; batches = [] }) }
    {
        let newest = Pinned::of(Arc::new(alloc, base)?);
        Ok(Versions {
            older: Vec::new(alloc),
            newest,
        })
    }

    /// The number of the newest version.
    pub fn newest(&self) -> u64
        ensures { result ≡ newest_in self.now }
    {
        self.newest.number()
    }

    /// The version of a number.
    pub fn at(&self, number: u64) -> &Pinned<V>
        requires first { 1 ≤ number }
        requires last { number ≤ newest_in self.now }
        ensures number { V.version result.now ≡ number }
        ensures graph { V.graph result.now ≡ graph_in self.now number }
    {
        let before = number as usize - 1;
        self.older.get(before).unwrap_or(&self.newest)
    }

    /// Makes a new version of the newest. An `Err` leaves the versions as they were.
    pub fn publish<R: Threads + Sync>(
        &mut self,
        rt: &R,
        alloc: Global,
        changes: &[Change],
    ) -> Result<(), ChangeFault>
        ensures grown { OnOk result (self.new ≡ grown self.old changes.now) }
        ensures accepted { OnOk result (fault_in self.old changes.now ≡ None) }
        ensures refused { IfErr result (IsRefusedAs (fault_in self.old changes.now)) }
        ensures stays { OnErr result (self.new ≡ self.old) }
    {
        let next = self.newest.prepared().after(rt, alloc, changes)?;
        let next = Pinned::of(Arc::new(alloc, next)?);
        self.older.reserve(1)?;
        let before = replace(&mut self.newest, next);
        let Ok(()) = self.older.push(before) else {
            unreachable!()
        };
        Ok(())
    }
}
