//! What is said to request lines.

ghost use Rattle.std.specs.Prelude.{◌≡◌};
ghost use Rattle.route_server.specs.Answering.{IsSaid};
ghost use Rattle.route_server.specs.Sessions.{last_plan, state_of};

use crate::session::Session;
use line_front::Parsed;
use road_model::{Reply, Request, Version};
use std::alloc::Global;
use std::thread::Threads;

/// What is said to a line.
#[derive(Debug, Drop)]
pub enum Said {
    /// It says nothing, and gets no reply.
    Nothing,
    /// It ends the run.
    Quit,
    /// A page is of the plan that the session shows.
    Answered(Reply),
}

/// What is said to a line.
pub fn say<R: Threads + Sync, V: Version + Drop>(
    rt: &R,
    alloc: Global,
    session: &mut Session<V>,
    asked: &Parsed,
) -> Said
    ensures said { IsSaid session.old.base (state_of session.old) asked.now result (last_plan session.new) (state_of session.new) }
    ensures base { session.new.base ≡ session.old.base }
{
    match asked {
        Parsed::Empty => Said::Nothing,
        Parsed::Request(Request::Quit) => Said::Quit,
        Parsed::Request(request) => Said::Answered(session.reply(rt, alloc, request)),
        Parsed::Error(kind) => Said::Answered(Reply::Error(*kind)),
    }
}
