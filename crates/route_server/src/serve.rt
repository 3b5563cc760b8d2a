//! The loop over request lines.

ghost use Rattle.std.specs.Prelude.{◌≡◌, ◌≢◌, ◌≤◌, [], false, option_copied};
ghost use Rattle.certificate_text.specs.declared.fault.CertFault.{CertFault};
ghost use Rattle.road_io.specs.Told.{IfTold};
ghost use Rattle.road_io.specs.Count.{HasRisen};
ghost use Rattle.line_front.specs.Replies.{HasItems};
ghost use Rattle.route_server.specs.Serving.{Stops};
ghost use Rattle.route_server.specs.Served.{Serves, SendsReply};
ghost use Rattle.route_server.specs.Sessions.{state_of};
ghost use Rattle.route_server.specs.Asking.{is_quit};
ghost use Rattle.route_server.specs.Causes.{IsLong, IsRefusal, IsWhole};

use crate::answering::{Said, say};
use crate::input::{NextLine, next_line};
use crate::session::Session;
use crate::status::Status;
use line_front::{MAX_LINE, Parsed, write_reply};
use road_io::{Gathered, Put, Sink, Source};
use road_model::{Plan, Reply, Version};
use road_text::{LineReader, SinkFailed};
use std::alloc::Global;
use std::thread::Threads;

/// The most bytes of input.
const MAX_INPUT: u64 = 4294967296;

/// How the reply to one line ended.
#[derive(Clone, Copy, Debug, PartialEq, Eq)]
pub enum Served {
    Written,
    /// The line ends the run.
    Quit,
    WriteFault,
    NoMemory,
}

/// Writes a reply in one piece. `gathered` is the buffer that it is put together in.
fn send<K: Sink>(
    reply: &Reply,
    shown: Option<&Plan>,
    gathered: &mut Gathered,
    output: &mut K,
) -> Served
    requires items { HasItems reply.now (option_copied shown) }
    ensures sends { IfTold (K.written output.old) (K.written output.new)
        (λ out now. SendsReply reply.now (option_copied shown.entry) out now result) }
    ensures count { K.faults output.old ≤ K.faults output.new }
    ensures cause { result ≡ Served.WriteFault → HasRisen (K.faults output.old) (K.faults output.new) }
    ensures quiet { result ≢ Served.WriteFault → K.faults output.new ≡ K.faults output.old }
{
    gathered.clear();
    match write_reply(gathered, reply, shown) {
        Ok(()) => match output.write(gathered.bytes()) {
            Put::Done => Served::Written,
            Put::Failed => Served::WriteFault,
        },
        Err(SinkFailed) => Served::NoMemory,
    }
}

/// Answers one line.
fn serve_one<R: Threads + Sync, V: Version + Drop, K: Sink>(
    rt: &R,
    alloc: Global,
    session: &mut Session<V>,
    asked: &Parsed,
    gathered: &mut Gathered,
    output: &mut K,
) -> Served
    ensures serves { IfTold (K.written output.old) (K.written output.new)
        (λ out now. Serves session.old.base (state_of session.old) asked.now out now (state_of session.new) result) }
    ensures base { session.new.base ≡ session.old.base }
    ensures count { K.faults output.old ≤ K.faults output.new }
    ensures cause { result ≡ Served.WriteFault → HasRisen (K.faults output.old) (K.faults output.new) }
    ensures quiet { result ≢ Served.WriteFault → K.faults output.new ≡ K.faults output.old }
    ensures unquit { result ≡ Served.Written → is_quit asked.now ≡ false }
{
    match say(rt, alloc, session, asked) {
        Said::Nothing => Served::Written,
        Said::Quit => Served::Quit,
        Said::Answered(reply) => send(&reply, session.shown(), gathered, output),
    }
}

/// Answers the lines of the input, over the newest version, until one ends the run, or the input ends or is too long,
/// or a read or a write fails, or there is no memory to begin with or for the text of a reply.
///
/// It keeps 128 KB for lines, the memory of searches (`Planner::Work`), the plans of the last eight queries, and the
/// longest reply.
pub fn serve<R: Threads + Sync, V: Version + Drop, S: Source, K: Sink>(
    rt: &R,
    alloc: Global,
    version: V,
    input: &mut S,
    output: &mut K,
) -> Status
    requires { V.history version ≡ [] }
    ensures stops { IfTold (S.left input.old) (S.left input.new) (λ text rest.
        IfTold (K.written output.old) (K.written output.new) (λ out now.
        Stops (V.base version) text rest out now result)) }
    ensures known { result ≡ Status.Usage → ⊥ }
    ensures unasked { result ≡ Status.QueryRefused → ⊥ }
    ensures unchecked { (fault : CertFault) → result ≡ Status.CheckedNo fault → ⊥ }
    ensures unrefused { IsRefusal result → ⊥ }
    ensures long { result ≡ Status.InputLong → IfTold (S.left input.old) (S.left input.new) (λ text rest. IsLong text) }
    ensures complete { (HasRisen (S.faults input.old) (S.faults input.new) → ⊥) →
        (HasRisen (K.faults output.old) (K.faults output.new) → ⊥) → IsWhole result }
    ensures read_count { S.faults input.old ≤ S.faults input.new }
    ensures read_cause { result ≡ Status.ReadFault → HasRisen (S.faults input.old) (S.faults input.new) }
    ensures read_quiet { result ≢ Status.ReadFault → S.faults input.new ≡ S.faults input.old }
    ensures write_count { K.faults output.old ≤ K.faults output.new }
    ensures write_cause { result ≡ Status.WriteFault → HasRisen (K.faults output.old) (K.faults output.new) }
    ensures write_quiet { result ≢ Status.WriteFault → K.faults output.new ≡ K.faults output.old }
{
    let Ok(mut session) = Session::start(alloc, version) else {
        return Status::NoMemory;
    };
    let Ok(mut reader) = LineReader::new(alloc, MAX_LINE, MAX_INPUT) else {
        return Status::NoMemory;
    };
    let mut gathered = Gathered::new(alloc);
    'lines: loop {
        match next_line(&mut reader, input) {
            NextLine::More(asked) => {
                match serve_one(rt, alloc, &mut session, &asked, &mut gathered, output) {
                    Served::Written => {}
                    Served::Quit => return Status::Done,
                    Served::WriteFault => return Status::WriteFault,
                    Served::NoMemory => return Status::NoMemory,
                }
            }
            NextLine::Last(asked) => {
                match serve_one(rt, alloc, &mut session, &asked, &mut gathered, output) {
                    Served::Written => return Status::Done,
                    Served::Quit => return Status::Done,
                    Served::WriteFault => return Status::WriteFault,
                    Served::NoMemory => return Status::NoMemory,
                }
            }
            NextLine::End => return Status::Done,
            NextLine::Over => return Status::InputLong,
            NextLine::Failed => return Status::ReadFault,
        }
    }
}
