//! Versions of one graph that are published one after another, and callers that each ask a desk of their own over them.
//! Nothing happens at the same time: what happens is a list of events.

ghost use Rattle.std.specs.Prelude.{◌≡◌, ◌<◌, ◌⊎◌, [], length, replicate, IfOk, OnErr};
ghost use Rattle.std.specs.List.{All};
ghost use Rattle.desk_core.specs.declared.event.Event.TheVariants as event;
ghost use Rattle.desk_core.specs.Desks.{IsDeskRequest};
ghost use Rattle.desk_core.specs.Worlds.{new_caller, started, IsEventFor, IsEventStep, IsWorldRun, IsRunOfSome};
ghost use Rattle.desk_core.specs.WorldSteps.{WasStep};

use crate::caller::Caller;
use crate::event::{Event, Outcome, OutcomeList};
use crate::history::Versions;
use road_model::{Change, ChangeFault, NoMemory, Request, Version};
use std::alloc::{AllocError, Global};
use std::marker::Model;
use std::thread::Threads;

/// Versions of a graph, and callers with their desks. To a clause it is a `WorldState`.
#[derive(Drop)]
pub struct World<V: Version> {
    versions: Versions<V>,
    callers: Vec<Caller>,
}

impl<V: Version> Model for World<V> {
    ghost use Rattle.std.specs.List.{All};
    ghost use Rattle.desk_core.specs.Worlds.{WorldState, IsSeen};

    ghost Value = { WorldState };

    ghost view = { λ w. record { history = w.versions; callers = w.callers.items } };

    ghost invariant = { λ w. All (IsSeen w.versions) w.callers.items };
}

impl<V: Version + Drop> World<V> {
    /// Version 1 alone, which every caller has seen, and desks that keep no plan yet, each with room for 8. The callers
    /// are 0 to one less than their number.
    pub fn start(alloc: Global, base: V, callers: u32) -> Result<World<V>, NoMemory>
        requires { V.history base ≡ [] }
        ensures { IfOk result (λ w. w ≡ started (V.base base) callers) }
    {
        let versions = Versions::start(alloc, base)?;
        let callers = new_callers(alloc, callers)?;
        Ok(World { versions, callers })
    }

    /// Asks a caller's desk over a version.
    fn ask<R: Threads + Sync>(
        &mut self,
        rt: &R,
        alloc: Global,
        work: &mut V::Work,
        caller: u32,
        version: u64,
        request: &Request,
    ) -> Result<Outcome, NoMemory>
        requires caller { caller < length self.old.callers }
        requires request { IsDeskRequest request.now }
        ensures ok { IfOk result (λ o. IsEventStep self.old (event.Request caller version request.now) o self.new) }
        ensures err { OnErr result (WasStep self.old (event.Request caller version request.now) self.new) }
    {
        let newest = self.versions.newest();
        let caller = &mut self.callers[caller as usize];
        let seen = caller.seen;
        if version < seen || newest < version {
            return Ok(Outcome::NotAllowed { seen, newest });
        }
        caller.ask(rt, alloc, work, self.versions.at(version), request)
    }

    /// Makes a new version of the newest.
    fn publish<R: Threads + Sync>(
        &mut self,
        rt: &R,
        alloc: Global,
        changes: &[Change],
    ) -> Result<Outcome, NoMemory>
        ensures ok { IfOk result (λ o. IsEventStep self.old (event.Publish changes.now) o self.new) }
        ensures err { OnErr result (self.new ≡ self.old) }
    {
        match self.versions.publish(rt, alloc, changes) {
            Ok(()) => Ok(Outcome::Published {
                number: self.versions.newest(),
            }),
            Err(ChangeFault::NoMemory) => Err(AllocError),
            Err(fault) => Ok(Outcome::Refused(fault)),
        }
    }

    /// Lets a caller hear that a version is there.
    fn tell(&mut self, caller: u32, version: u64) -> Outcome
        requires { caller < length self.old.callers }
        ensures { IsEventStep self.old (event.Tell caller version) result self.new }
    {
        let newest = self.versions.newest();
        let caller = &mut self.callers[caller as usize];
        if newest < version {
            return Outcome::NotAllowed {
                seen: caller.seen,
                newest,
            };
        }
        caller.seen = caller.seen.max(version);
        Outcome::Told { seen: caller.seen }
    }

    /// Lets an event happen. An `Err` comes before anything has changed, or after all of it has.
    fn step<R: Threads + Sync>(
        &mut self,
        rt: &R,
        alloc: Global,
        work: &mut V::Work,
        event: &Event,
    ) -> Result<Outcome, NoMemory>
        requires { IsEventFor (length self.old.callers) event.now }
        ensures ok { IfOk result (λ o. IsEventStep self.old event.now o self.new) }
        ensures err { OnErr result ((self.new ≡ self.old) ⊎ WasStep self.old event.now self.new) }
    {
        match event {
            Event::Request {
                caller,
                version,
                request,
            } => self.ask(rt, alloc, work, *caller, *version, request),
            Event::Publish { changes } => self.publish(rt, alloc, changes.as_slice()),
            Event::Tell { caller, version } => Ok(self.tell(*caller, *version)),
        }
    }
}

/// So many callers that have seen version 1.
fn new_callers(alloc: Global, callers: u32) -> Result<Vec<Caller>, NoMemory>
    ensures { IfOk result (λ cs. cs.items ≡ replicate callers new_caller) }
{
    let mut made = Vec::with_capacity(alloc, callers as usize)?;
    for _ in 0..callers {
        made.push(Caller::start(alloc)?)?;
    }
    Ok(made)
}

/// Lets events happen in their order, and tells what each comes to.
///
/// A request that its desk answers `Memory` is answered. An `Err` ends the events: the world is as after the first so
/// many of them, and it isn't told how many.
pub fn run_desks<R: Threads + Sync, V: Version + Drop>(
    rt: &R,
    alloc: Global,
    world: &mut World<V>,
    work: &mut V::Work,
    events: &[Event],
) -> Result<OutcomeList, NoMemory>
    requires { All (IsEventFor (length world.old.callers)) events.now }
    ensures callers { length world.new.callers ≡ length world.old.callers }
    ensures ok { IfOk result (λ outcomes. IsWorldRun world.old events.now outcomes world.new) }
    ensures err { OnErr result (IsRunOfSome world.old events.now world.new) }
{
    let mut outcomes = OutcomeList::new(alloc);
    for event in events {
        outcomes.push(world.step(rt, alloc, work, event)?)?;
    }
    Ok(outcomes)
}
