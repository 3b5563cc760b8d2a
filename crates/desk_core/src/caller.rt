//! A caller of a world, with its desk.

ghost use Rattle.std.specs.Prelude.{◌≡◌, None, IfOk, OnErr, if◌then◌else◌};
ghost use Rattle.desk_core.specs.Desks.{first_plan, IsDeskRequest};
ghost use Rattle.desk_core.specs.Worlds.{is_page, new_caller, plan_in};
ghost use Rattle.desk_core.specs.CallerTurns.{HasPlan, IsAsked, WasAsked};

use crate::Desk;
use crate::event::Outcome;
use road_model::{NoMemory, Pinned, Plan, Planner, Reply, Request};
use std::alloc::Global;
use std::sync::Arc;
use std::thread::Threads;

/// How many plans the desk of a caller keeps.
const KEPT: u32 = 8;

/// The newest version that a caller has seen, and its desk.
#[derive(Drop)]
pub struct Caller {
    pub seen: u64,
    pub desk: Desk,
}

fn is_page(reply: &Reply) -> bool
    ensures { result ≡ is_page reply.now }
{
    matches!(reply, Reply::Page { .. })
}

/// The plan that a page is of, where the reply is a page.
fn plan_of(desk: &Desk, reply: &Reply) -> Result<Option<Arc<Plan, Global>>, NoMemory>
    ensures ok { IfOk result (λ p. plan_in p ≡ (if is_page reply.now then first_plan desk.now else None)) }
    ensures err { OnErr result (HasPlan (if is_page reply.now then first_plan desk.now else None)) }
{
    if !is_page(reply) {
        return Ok(None);
    }
    match desk.shown() {
        Some(plan) => Ok(Some(Arc::try_clone(plan)?)),
        None => Ok(None),
    }
}

impl Caller {
    /// It has seen version 1, and its desk keeps no plan yet.
    pub fn start(alloc: Global) -> Result<Caller, NoMemory>
        ensures { IfOk result (λ c. c ≡ new_caller) }
    {
        Ok(Caller {
            seen: 1,
            desk: Desk::start(alloc, KEPT)?,
        })
    }

    /// Asks the desk over a version, which is what the caller has seen from then on. An `Err` comes after the reply,
    /// where the plan of a page has as many owners as there may be.
    pub fn ask<R: Threads + Sync, P: Planner>(
        &mut self,
        rt: &R,
        alloc: Global,
        work: &mut P::Work,
        pinned: &Pinned<P>,
        request: &Request,
    ) -> Result<Outcome, NoMemory>
        requires { IsDeskRequest request.now }
        ensures ok { IfOk result (λ o. IsAsked (P.version pinned.now) (P.graph pinned.now) self.old request.now o self.new) }
        ensures err { OnErr result (WasAsked (P.version pinned.now) (P.graph pinned.now) self.old request.now self.new) }
    {
        self.seen = pinned.number();
        let reply = self.desk.handle(rt, alloc, work, pinned, request);
        let shown = plan_of(&self.desk, &reply)?;
        Ok(Outcome::Reply { reply, shown })
    }
}
