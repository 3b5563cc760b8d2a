//! The versions that one run publishes, and the desk that answers over the newest.

ghost use Rattle.std.specs.Prelude.{◌≡◌, ◌≢◌, ◌++◌, [], ◌∷◌, false, None, option_copied, IfErr, IfOk};
ghost use Rattle.road_model.specs.declared.change.ChangeFault.TheVariants as fault;
ghost use Rattle.road_model.specs.Changes.{fault_of};
ghost use Rattle.road_model.specs.declared.planner.TheConstants.{LAST_VERSION};
ghost use Rattle.desk_core.specs.declared.refusals.Asked.TheVariants as question;
ghost use Rattle.desk_core.specs.States.{limits_in, newest};
ghost use Rattle.desk_core.specs.Replies.{IsStep};
ghost use Rattle.line_front.specs.Replies.{HasItems};
ghost use Rattle.route_server.specs.Asking.{is_quit_request};
ghost use Rattle.route_server.specs.Sessions.{last_plan, opened, refusal_of, state_of, IsChange, IsChangeMade};

use desk_core::{Asked, Desk, Limits, tested};
use road_model::{
    Batch, Change, ChangeFault, ErrorKind, NoMemory, Pinned, Plan, Reply, Request, Version,
};
use std::alloc::Global;
use std::marker::Model;
use std::sync::Arc;
use std::thread::Threads;

/// How many plans the desk keeps.
const KEPT: u32 = 8;

/// A graph whose lengths change: its newest version, the changes that are staged for the next one, and the desk that
/// answers requests and keeps plans. To a clause it is a `SessionState`.
#[derive(Drop)]
pub struct Session<V: Version> {
    newest: Pinned<V>,
    staged: Batch,
    desk: Desk,
    work: V::Work,
}

impl<V: Version> Model for Session<V> {
    ghost use Rattle.route_server.specs.Sessions.{IsSoundSession, SessionState};

    ghost Value = { SessionState };

    ghost view = { λ s. record { base = V.base s.newest; batches = V.history s.newest; staged = s.staged; desk = s.desk } };

    ghost invariant = { λ s. IsSoundSession (record { base = V.base s.newest; batches = V.history s.newest; staged = s.staged; desk = s.desk }) };
}

/// What is replied where a new version is refused.
fn refusal(fault: ChangeFault) -> ErrorKind
    ensures { result ≡ refusal_of fault }
{
    match fault {
        ChangeFault::ArcRange => ErrorKind::ArcRange,
        ChangeFault::LengthRange => ErrorKind::LengthRange,
        ChangeFault::Full => ErrorKind::Full,
        ChangeFault::NoMemory => ErrorKind::Memory,
    }
}

impl<V: Version + Drop> Session<V> {
    /// Begins at version 1. It takes the memory of the desk's index; that of searches and plans is taken as they come.
    pub fn start(alloc: Global, version: V) -> Result<Session<V>, NoMemory>
        requires { V.history version ≡ [] }
        ensures { IfOk result (λ s. s ≡ opened (V.base version)) }
    {
        let desk = Desk::start(alloc, KEPT)?;
        let newest = Pinned::of(Arc::new(alloc, version)?);
        Ok(Session {
            newest,
            staged: Batch::new(alloc),
            desk,
            work: V::work(alloc),
        })
    }

    /// The plan that was used last: after a page, the plan that the page is of. Takes no memory.
    pub fn shown(&self) -> Option<&Plan>
        ensures { option_copied result ≡ last_plan self.now }
    {
        let plan = self.desk.shown()?;
        Some(plan)
    }

    /// What a request for a change is tested against.
    fn limits(&self) -> Limits
        ensures { (request : Request) → IsChange request → result ≡ limits_in self.now.base (state_of self.now) request }
    {
        Limits {
            vertices: self.newest.prepared().vertices(),
            arcs: self.newest.prepared().arcs(),
            number: self.newest.number(),
            kept: false,
        }
    }

    /// Stages one more change.
    fn stage(&mut self, change: Change) -> Reply
        requires { fault_of self.old.base change ≡ None }
        ensures made { IsChangeMade self.old.base (state_of self.old) (question.Length change) result (last_plan self.new) (state_of self.new) }
        ensures base { self.new.base ≡ self.old.base }
    {
        match self.staged.push(change) {
            Ok(()) => Reply::Staged {
                count: self.staged.len() as u64,
            },
            Err(_) => Reply::Error(ErrorKind::Memory),
        }
    }

    /// The version after the newest, with what is staged.
    fn with_staged<R: Threads + Sync>(
        &self,
        rt: &R,
        alloc: Global,
    ) -> Result<Pinned<V>, ChangeFault>
        requires { newest (state_of self.now) ≢ LAST_VERSION }
        ensures base { IfOk result (λ v. V.base v ≡ self.now.base) }
        ensures history { IfOk result (λ v. V.history v ≡ self.now.batches ++ self.now.staged ∷ []) }
        ensures memory { IfErr result (λ e. e ≡ fault.NoMemory) }
    {
        let staged = self.staged.as_slice();
        match self.newest.prepared().after(rt, alloc, staged) {
            Ok(version) => Ok(Pinned::of(Arc::new(alloc, version)?)),
            Err(fault) => Err(fault),
        }
    }

    /// Makes what is staged a new version.
    fn publish<R: Threads + Sync>(&mut self, rt: &R, alloc: Global) -> Reply
        requires { newest (state_of self.old) ≢ LAST_VERSION }
        ensures made { IsChangeMade self.old.base (state_of self.old) question.Publish result (last_plan self.new) (state_of self.new) }
        ensures base { self.new.base ≡ self.old.base }
    {
        match self.with_staged(rt, alloc) {
            Ok(version) => {
                let number = version.number();
                self.newest = version;
                self.staged = Batch::new(alloc);
                Reply::Published { number }
            }
            Err(fault) => Reply::Error(refusal(fault)),
        }
    }

    /// Replies to a request for a change.
    fn change<R: Threads + Sync>(&mut self, rt: &R, alloc: Global, request: &Request) -> Reply
        requires { IsChange request.now }
        ensures step { IsStep self.old.base (state_of self.old) request.now result (last_plan self.new) (state_of self.new) }
        ensures base { self.new.base ≡ self.old.base }
    {
        match tested(&self.limits(), request) {
            Ok(Asked::Length(change)) => self.stage(change),
            Ok(_) => self.publish(rt, alloc),
            Err(kind) => Reply::Error(kind),
        }
    }

    /// Replies to a request: its refusal, or its answer over the newest version, or what became of a change, or that
    /// memory was refused. Where the reply is a page, the plan that it is of is the one that is `shown`.
    ///
    /// A page of a kept plan, in whichever version, takes no memory and makes no search. A refused request leaves the
    /// session as it was.
    pub fn reply<R: Threads + Sync>(&mut self, rt: &R, alloc: Global, request: &Request) -> Reply
        requires { is_quit_request request.now ≡ false }
        ensures step { IsStep self.old.base (state_of self.old) request.now result (last_plan self.new) (state_of self.new) }
        ensures items { HasItems result (last_plan self.new) }
        ensures base { self.new.base ≡ self.old.base }
    {
        match request {
            Request::Length { .. } | Request::Publish => self.change(rt, alloc, request),
            _ => self
                .desk
                .handle(rt, alloc, &mut self.work, &self.newest, request),
        }
    }
}
