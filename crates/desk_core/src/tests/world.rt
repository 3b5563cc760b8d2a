//! A world of two callers over versions of a graph without arcs, so that no change is ever accepted.

ghost use Rattle.std.specs.Prelude.{◌≡◌, [], ◌∷◌, IfOk};
ghost use Rattle.std.specs.List.{All};
ghost use Rattle.desk_core.specs.Desks.{IsDeskRequest};
ghost use Rattle.road_model.specs.declared.answer.Plan.TheVariants as plan;
ghost use Rattle.desk_core.specs.Worlds.{IsEventFor};

use crate::{Event, Outcome, World, run_desks};
use road_model::{
    ArcNo, Batch, Change, ChangeFault, Cursor, CursorQuery, Items, NoMemory, Optimum, Plan,
    Planner, Query, Reply, Request, Verdict, Version, Vertex,
};
use std::alloc::{AllocError, Global};
use std::process::Abort;
use std::test::Fail;
use std::thread::Threads;

/// A version of a graph of 20 vertices and no arcs, after so many empty batches. It refuses memory to every question but
/// for a plan.
#[derive(Drop)]
struct Bare {
    batches: u32,
}

impl Planner for Bare {
    type Work = ();

    ghost use Rattle.std.specs.Prelude.{[], ◌+◌, List, length, replicate};
    ghost use Rattle.road_model.specs.declared.change.Change.{Change};
    ghost use Rattle.road_model.specs.Changes.{after_all};

    ghost graph = { λ v. after_all (record { vertices = 20; arcs = [] }) (replicate v.batches []) };

    ghost version = { λ v. length (replicate {A = List Change} v.batches []) + 1 };

    fn work(_alloc: Global) {}

    fn number(&self) -> u64 {
        u64::from(self.batches) + 1
    }

    fn vertices(&self) -> u32 {
        20
    }

    fn arcs(&self) -> u32 {
        0
    }

    fn best<R: Threads + Sync>(
        &self,
        _rt: &R,
        _alloc: Global,
        _work: &mut (),
        _from: Vertex,
        _to: Vertex,
    ) -> Result<Option<Optimum>, NoMemory> {
        Err(AllocError)
    }

    fn plan<R: Threads + Sync>(
        &self,
        _rt: &R,
        alloc: Global,
        _work: &mut (),
        query: &Query,
    ) -> Result<Plan, NoMemory> {
        if query.from == query.to {
            return Ok(nowhere(alloc));
        }
        Ok(Plan::NoPath)
    }

    fn verdict<R: Threads + Sync>(
        &self,
        _rt: &R,
        _alloc: Global,
        _work: &mut (),
        _query: &Query,
        _via: Vertex,
    ) -> Result<Option<Verdict>, NoMemory> {
        Err(AllocError)
    }
}

impl Version for Bare {
    ghost use Rattle.std.specs.Prelude.{[], refl, replicate};

    ghost base = { λ _. record { vertices = 20; arcs = [] } };

    ghost history = { λ v. replicate v.batches [] };

    fn after<R: Threads + Sync>(
        &self,
        _rt: &R,
        _alloc: Global,
        changes: &[Change],
    ) -> Result<Bare, ChangeFault> {
        if !changes.is_empty() {
            return Err(ChangeFault::ArcRange);
        }
        if self.batches == 1048575 {
            return Err(ChangeFault::Full);
        }
        let Some(batches) = self.batches.checked_add(1) else {
            return Err(ChangeFault::NoMemory);
        };
        Ok(Bare { batches })
    }

    ghost has_graph = { λ v. refl };

    ghost has_number = { λ v. refl };
}

/// The plan from a vertex to itself.
fn nowhere(alloc: Global) -> Plan
    ensures { result ≡ plan.Found (record { length = 0; arcs = [] }) [] }
{
    let optimum = Optimum {
        length: 0,
        arcs: Items::new(alloc),
    };
    Plan::Found {
        optimum,
        others: Items::new(alloc),
    }
}

/// What happens.
#[derive(Drop)]
enum Happens {
    /// A caller, 0 or 1, asks for the version.
    Version(bool, u64),
    /// It asks for the routes from vertex 1 to another.
    Route(bool, u64, u64),
    /// It asks for the optimum, which the versions here refuse memory to.
    Best(bool, u64),
    /// It asks for the page of such routes, in a version.
    Next(bool, u64, u64, u64),
    /// So many changes are published.
    Publish(usize),
    Tell(bool, u64),
}

/// What it comes to.
#[derive(Debug, Drop, PartialEq)]
enum Wanted {
    Version(u64),
    /// A page, beside which a plan stands.
    Page(u64),
    NoPath(u64),
    /// The word of a refusal, and its number.
    Error(&'static str, Option<u64>),
    Published(u64),
    Refused(ChangeFault),
    Told(u64),
    NotAllowed(u64, u64),
    /// None of these.
    Other,
}

fn request(caller: bool, version: u64, request: Request) -> Event
    requires { IsDeskRequest request }
    ensures { IsEventFor 2 result }
{
    Event::Request {
        caller: u32::from(caller),
        version,
        request,
    }
}

fn event_of(alloc: Global, happens: &Happens) -> Result<Event, NoMemory>
    ensures { IfOk result (IsEventFor 2) }
{
    Ok(match happens {
        Happens::Version(caller, version) => request(*caller, *version, Request::Version),
        Happens::Route(caller, version, to) => {
            let route = Request::Route {
                query: CursorQuery::usual(1, *to),
                size: 5,
                since: None,
            };
            request(*caller, *version, route)
        }
        Happens::Best(caller, version) => {
            request(*caller, *version, Request::Best { from: 1, to: 2 })
        }
        Happens::Next(caller, version, old, to) => {
            let cursor = Cursor {
                version: *old,
                query: CursorQuery::usual(1, *to),
                size: 5,
                offset: 0,
            };
            request(*caller, *version, Request::Next { cursor })
        }
        Happens::Publish(count) => Event::Publish {
            changes: batch(alloc, *count)?,
        },
        Happens::Tell(caller, version) => Event::Tell {
            caller: u32::from(*caller),
            version: *version,
        },
    })
}

fn batch(alloc: Global, count: usize) -> Result<Batch, NoMemory> {
    let mut changes = Items::new(alloc);
    for _ in 0..count {
        changes.push(Change {
            arc: ArcNo(1),
            length: 7,
        })?;
    }
    Ok(changes)
}

fn events(alloc: Global, rows: &[(Happens, Wanted)]) -> Result<Vec<Event>, NoMemory>
    ensures { IfOk result (λ es. All (IsEventFor 2) es.items) }
{
    let mut events = Vec::new(alloc);
    for (happens, _) in rows {
        events.push(event_of(alloc, happens)?)?;
    }
    Ok(events)
}

fn told(outcome: &Outcome) -> Wanted {
    match outcome {
        Outcome::Reply {
            reply: Reply::Page { number, .. },
            shown: Some(_),
        } => Wanted::Page(*number),
        Outcome::Reply { shown: Some(_), .. } => Wanted::Other,
        Outcome::Reply { reply, shown: None } => match reply {
            Reply::Version { number } => Wanted::Version(*number),
            Reply::NoPath { number } => Wanted::NoPath(*number),
            Reply::Error(kind) => Wanted::Error(kind.word(), kind.number()),
            _ => Wanted::Other,
        },
        Outcome::Published { number } => Wanted::Published(*number),
        Outcome::Refused(fault) => Wanted::Refused(*fault),
        Outcome::Told { seen } => Wanted::Told(*seen),
        Outcome::NotAllowed { seen, newest } => Wanted::NotAllowed(*seen, *newest),
    }
}

/// Lets the events of these rows happen in a world that was just started, where each has to come to what stands beside
/// it.
fn run(
    rt: &(impl Abort + Threads + Sync),
    alloc: Global,
    rows: &[(Happens, Wanted)],
) -> Result<(), NoMemory> {
    let mut world = World::start(alloc, Bare { batches: 0 }, 2)?;
    let events = events(alloc, rows)?;
    let outcomes = run_desks(rt, alloc, &mut world, &mut (), &events)?;
    assert_eq!(rt; outcomes.len(), rows.len());
    for (outcome, (_, wanted)) in outcomes.as_slice().iter().zip(rows) {
        assert_eq!(rt; told(outcome), *wanted);
    }
    Ok(())
}

#[test]
fn a_version_that_was_seen_is_not_left(rt: HostRuntime) -> Result<(), Fail> {
    let rows = [
        (Happens::Version(false, 1), Wanted::Version(1)),
        (Happens::Publish(0), Wanted::Published(2)),
        (Happens::Version(false, 1), Wanted::Version(1)),
        (Happens::Version(false, 2), Wanted::Version(2)),
        (Happens::Version(false, 1), Wanted::NotAllowed(2, 2)),
        (Happens::Version(true, 1), Wanted::Version(1)),
        (Happens::Version(true, 3), Wanted::NotAllowed(1, 2)),
        (Happens::Publish(1), Wanted::Refused(ChangeFault::ArcRange)),
        (Happens::Tell(true, 3), Wanted::NotAllowed(1, 2)),
        (Happens::Tell(true, 2), Wanted::Told(2)),
        (Happens::Tell(true, 1), Wanted::Told(2)),
        (Happens::Version(true, 1), Wanted::NotAllowed(2, 2)),
        (Happens::Publish(0), Wanted::Published(3)),
        (Happens::Best(true, 3), Wanted::Error("memory", None)),
        (Happens::Version(true, 2), Wanted::NotAllowed(3, 3)),
    ];
    run(&rt, rt.alloc(), &rows)?;
    Ok(())
}

#[test]
fn each_caller_has_a_desk_of_its_own(rt: HostRuntime) -> Result<(), Fail> {
    let rows = [
        (Happens::Route(false, 1, 1), Wanted::Page(1)),
        (Happens::Route(false, 1, 2), Wanted::NoPath(1)),
        (Happens::Publish(0), Wanted::Published(2)),
        (Happens::Next(true, 2, 1, 1), Wanted::Error("gone", Some(2))),
        (Happens::Next(false, 2, 1, 1), Wanted::Page(1)),
        (Happens::Next(false, 2, 1, 2), Wanted::NoPath(1)),
        (Happens::Route(false, 2, 1), Wanted::Page(2)),
        (Happens::Route(false, 2, 21), Wanted::Error("vertex", None)),
    ];
    run(&rt, rt.alloc(), &rows)?;
    Ok(())
}
