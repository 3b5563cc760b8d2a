//! A caller of a world whose versions have arcs, and hierarchies of their own.

ghost use Rattle.std.specs.Prelude.{IfOk};
ghost use Rattle.std.specs.List.{All};
ghost use Rattle.desk_core.specs.Worlds.{IsEventFor};

use desk_core::{Event, Outcome, World, run_desks};
use road_model::{ArcNo, Batch, Change, NoMemory, Planner, Reply, Request};
use route_engine::Prepared;
use std::alloc::Global;
use std::test::Fail;
use worked_graphs::{A, graph_of};

/// What an event came to.
#[derive(Clone, Copy, Debug, PartialEq, Eq)]
enum Told {
    Version(u64),
    Published(u64),
    NotAllowed { seen: u64, newest: u64 },
    Other,
}

fn told_by(outcome: &Outcome) -> Told {
    match outcome {
        Outcome::Reply {
            reply: Reply::Version { number },
            shown: None,
        } => Told::Version(*number),
        Outcome::Published { number } => Told::Published(*number),
        Outcome::NotAllowed { seen, newest } => Told::NotAllowed {
            seen: *seen,
            newest: *newest,
        },
        _ => Told::Other,
    }
}

/// The one caller asks over a version for its number.
fn asks(version: u64) -> Event
    ensures { IsEventFor 1 result }
{
    Event::Request {
        caller: 0,
        version,
        request: Request::Version,
    }
}

/// Version 1 is asked, a change is published, and then versions 1, 2 and 1 are asked.
fn events(alloc: Global) -> Result<Vec<Event>, NoMemory>
    ensures { IfOk result (λ es. All (IsEventFor 1) es.items) }
{
    let mut changes = Batch::new(alloc);
    changes.push(Change {
        arc: ArcNo(4),
        length: 7,
    })?;
    let mut events = Vec::new(alloc);
    events.push(asks(1))?;
    events.push(Event::Publish { changes })?;
    events.push(asks(1))?;
    events.push(asks(2))?;
    events.push(asks(1))?;
    Ok(events)
}

#[test]
fn a_caller_sees_no_version_before_one_that_it_saw(rt: HostRuntime) -> Result<(), Fail> {
    let alloc = rt.alloc();
    let first = Prepared::from_file(&rt, alloc, graph_of(alloc, 6, A)?)?;
    let mut world = World::start(alloc, first, 1)?;
    let mut work = Prepared::work(alloc);
    let events = events(alloc)?;
    let outcomes = run_desks(&rt, alloc, &mut world, &mut work, &events)?;
    let wanted = [
        Told::Version(1),
        Told::Published(2),
        Told::Version(1),
        Told::Version(2),
        Told::NotAllowed { seen: 2, newest: 2 },
    ];
    assert_eq!(rt; outcomes.len(), wanted.len());
    for (outcome, wanted) in outcomes.as_slice().iter().zip(&wanted) {
        assert_eq!(rt; told_by(outcome), *wanted);
    }
    Ok(())
}
