//! The desk that keeps plans.

ghost use Rattle.std.specs.Prelude.{◌≡◌, ◌≤◌, false, true, is_some, option_map, option_copied, IfOk, OnErr, OnOk};
ghost use Rattle.road_model.specs.Graph.{IsVertex};
ghost use Rattle.desk_core.specs.Replies.{best_reply, may_refuse_memory, why_reply};
ghost use Rattle.desk_core.specs.Desks.{desk_limits, empty_desk, first_plan, keeps, key_of, plan_at, put_first, HasSmallCursor, IsBrought, IsDeskAnswer, IsDeskQuestion, IsDeskRequest, IsDeskStep, IsMoved, NeedsMemory};

use crate::pages::{page_reply, query_numbers};
use crate::plan_key::{PlanKey, asked_key};
use crate::refusals::{Asked, Limits, tested};
use lru::LruCache;
use road_model::{
    ErrorKind, NoMemory, Optimum, Pinned, Plan, Planner, Query, Reply, Request, Verdict, Vertex,
};
use std::alloc::Global;
use std::marker::Model;
use std::num::NonZeroUsize;
use std::sync::Arc;
use std::thread::Threads;

/// Answers requests, and keeps the plans of the last pages. To a clause it is a `DeskState`.
///
/// It keeps few plans, at most 64, so keys that are chosen to collide cost little.
#[derive(Drop)]
pub struct Desk {
    plans: LruCache<PlanKey, Arc<Plan, Global>>,
}

impl Model for Desk {
    ghost use Rattle.desk_core.specs.Desks.{DeskState};
    ghost use Rattle.desk_core.specs.Views.{desk_of};

    ghost Value = { DeskState };

    ghost view = { λ d. desk_of d.plans };
}

fn best_reply(number: u64, found: Option<Optimum>) -> Reply
    ensures { result ≡ best_reply number found }
{
    match found {
        Some(optimum) => Reply::Best { number, optimum },
        None => Reply::NoPath { number },
    }
}

fn why_reply(number: u64, via: Vertex, found: Option<Verdict>) -> Reply
    ensures { result ≡ why_reply number via found }
{
    match found {
        Some(verdict) => Reply::Why {
            number,
            via,
            verdict,
        },
        None => Reply::NoPath { number },
    }
}

impl Desk {
    /// A desk that keeps so many plans. The memory of its index is taken here, that of a plan when it is made.
    pub fn start(alloc: Global, kept: u32) -> Result<Desk, NoMemory>
        requires some { 1 ≤ kept }
        requires few { kept ≤ 64 }
        ensures { IfOk result (λ d. d ≡ empty_desk kept) }
    {
        let Some(room) = NonZeroUsize::new(kept as usize) else {
            unreachable!()
        };
        let plans = LruCache::new(alloc, room)?;
        Ok(Desk { plans })
    }

    /// The plan that was used last: after a page, the plan that the page is of. Takes no memory.
    pub fn shown(&self) -> Option<&Arc<Plan, Global>>
        ensures { option_map (λ p. p.value) (option_copied result) ≡ first_plan self.now }
    {
        let (_, plan) = self.plans.peek_mru()?;
        Some(plan)
    }

    /// Whether a plan is kept under this key, where there is one.
    fn keeps(&self, key: Option<PlanKey>) -> bool
        ensures { result ≡ keeps self.now key }
    {
        match key {
            Some(key) => self.plans.contains(&key),
            None => false,
        }
    }

    /// What a request is tested against.
    fn limits<P: Planner>(&self, pinned: &Pinned<P>, request: &Request) -> Limits
        ensures { result ≡ desk_limits (P.version pinned.now) (P.graph pinned.now) self.now request.now }
    {
        let number = pinned.number();
        Limits {
            vertices: pinned.prepared().vertices(),
            arcs: pinned.prepared().arcs(),
            number,
            kept: self.keeps(asked_key(number, request)),
        }
    }

    /// Makes the plan of this key the last used, where it is kept, and says whether it is.
    fn promote(&mut self, key: &PlanKey) -> bool
        ensures kept { is_some (plan_at self.old key.now) ≡ result }
        ensures moved { result ≡ true → IsMoved self.old key.now self.new }
        ensures same { result ≡ false → self.new ≡ self.old }
    {
        prove!(self.plans.len() <= self.plans.cap().get());
        self.plans.promote(key)
    }

    /// Keeps a plan as the last used, in place of the one used longest ago where the desk is full.
    fn put(&mut self, alloc: Global, key: PlanKey, plan: Plan) -> Result<(), NoMemory>
        requires { plan_at self.old key ≡ None }
        ensures put { OnOk result (self.new ≡ put_first self.old key plan) }
        ensures first { OnOk result (first_plan self.new ≡ Some plan) }
        ensures err { OnErr result (self.new ≡ self.old) }
    {
        prove!(self.plans.len() <= self.plans.cap().get());
        let plan = Arc::new(alloc, plan)?;
        self.plans.put(key, plan)?;
        Ok(())
    }

    /// Makes the plan of this key the last used. One that isn't kept is made in the pinned version.
    fn bring<R: Threads + Sync, P: Planner>(
        &mut self,
        rt: &R,
        alloc: Global,
        work: &mut P::Work,
        pinned: &Pinned<P>,
        version: u64,
        query: &Query,
    ) -> Result<(), NoMemory>
        requires source { IsVertex (P.graph pinned.now).vertices query.now.from }
        requires target { IsVertex (P.graph pinned.now).vertices query.now.to }
        ensures brought { OnOk result (IsBrought (P.graph pinned.now) query.now self.old version self.new) }
        ensures err { OnErr result (self.new ≡ self.old) }
        ensures memory { OnErr result (plan_at self.old (key_of version query.now) ≡ None) }
        ensures idle { (plan_at self.old (key_of version query.now) ≡ None → ⊥) → work.new ≡ work.old }
    {
        let key = PlanKey {
            version,
            query: query_numbers(query),
        };
        if self.promote(&key) {
            return Ok(());
        }
        let plan = pinned.prepared().plan(rt, alloc, work, query)?;
        self.put(alloc, key, plan)
    }

    /// Answers what is asked.
    fn answered<R: Threads + Sync, P: Planner>(
        &mut self,
        rt: &R,
        alloc: Global,
        work: &mut P::Work,
        pinned: &Pinned<P>,
        asked: &Asked,
    ) -> Result<Reply, NoMemory>
        requires { IsDeskQuestion (P.graph pinned.now) asked.now }
        ensures answer { IfOk result (λ r.
            IsDeskAnswer (P.version pinned.now) (P.graph pinned.now) self.old asked.now r (first_plan self.new) self.new) }
        ensures small { IfOk result HasSmallCursor }
        ensures err { OnErr result (self.new ≡ self.old) }
        ensures memory { OnErr result (NeedsMemory self.old asked.now) }
        ensures idle { (NeedsMemory self.old asked.now → ⊥) → work.new ≡ work.old }
    {
        let number = pinned.number();
        let version = pinned.prepared();
        match asked {
            Asked::Best { from, to } => {
                Ok(best_reply(number, version.best(rt, alloc, work, *from, *to)?))
            }
            Asked::Page {
                number,
                query,
                size,
                offset,
            } => {
                self.bring(rt, alloc, work, pinned, *number, query)?;
                let Some(plan) = self.shown() else {
                    unreachable!()
                };
                Ok(page_reply(*number, query, *size, *offset, plan))
            }
            Asked::Why { query, via } => {
                let found = version.verdict(rt, alloc, work, query, *via)?;
                Ok(why_reply(number, *via, found))
            }
            Asked::Version => Ok(Reply::Version { number }),
            Asked::Length(_) | Asked::Publish | Asked::Quit => unreachable!(),
        }
    }

    /// Replies to a request over the pinned version: its refusal, or its answer, or that memory was refused. Where the
    /// reply is a page, the plan that it is of is the one that is `shown`.
    ///
    /// A page of a kept plan, in whichever version, takes no memory and makes no search. Any other takes those of a
    /// plan.
    pub fn handle<R: Threads + Sync, P: Planner>(
        &mut self,
        rt: &R,
        alloc: Global,
        work: &mut P::Work,
        pinned: &Pinned<P>,
        request: &Request,
    ) -> Reply
        requires { IsDeskRequest request.now }
        ensures step { IsDeskStep (P.version pinned.now) (P.graph pinned.now) self.old request.now result
            (first_plan self.new) self.new }
        ensures small { HasSmallCursor result }
        ensures idle { may_refuse_memory (desk_limits (P.version pinned.now) (P.graph pinned.now) self.old request.now)
            request.now ≡ false → work.new ≡ work.old }
    {
        let limits = self.limits(pinned, request);
        match tested(&limits, request) {
            Ok(asked) => match self.answered(rt, alloc, work, pinned, &asked) {
                Ok(reply) => reply,
                Err(_) => Reply::Error(ErrorKind::Memory),
            },
            Err(kind) => Reply::Error(kind),
        }
    }
}
