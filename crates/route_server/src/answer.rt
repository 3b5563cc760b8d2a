//! The command that answers requests.

ghost use Rattle.std.specs.Prelude.{◌≡◌, ◌≢◌, ◌≤◌, ◌⊎◌, IfSome};
ghost use Rattle.certificate_text.specs.declared.fault.CertFault.{CertFault};
ghost use Rattle.road_io.specs.Told.{IfTold};
ghost use Rattle.road_io.specs.Count.{HasRisen};
ghost use Rattle.road_io.specs.Shelf.{with_name};
ghost use Rattle.dimacs_reader.specs.declared.fault.GraphFault.{GraphFault};
ghost use Rattle.route_server.specs.Answer.{AnswersFile};
ghost use Rattle.route_server.specs.Causes.{HasFault, IsAccepted, IsLong, IsRefusal, IsUnjudged, IsWhole};

use crate::load::{ends_as, read_named};
use crate::serve::serve;
use crate::status::Status;
use road_io::{Shelf, Sink, Source};
use route_engine::Prepared;
use std::alloc::Global;
use std::thread::Threads;

/// Answers the request lines of the input over the named graph file, and publishes the changes of lengths among them.
pub fn answer<R: Threads + Sync, F: Shelf, S: Source, K: Sink>(
    rt: &R,
    alloc: Global,
    name: &str,
    shelf: &mut F,
    input: &mut S,
    output: &mut K,
) -> Status
    ensures answers { IfSome (F.left shelf.old) (λ told.
        IfTold (S.left input.old) (S.left input.new) (λ text rest.
        IfTold (K.written output.old) (K.written output.new) (λ out now.
        AnswersFile (told.files name.now) text rest out now result))) }
    ensures known { result ≡ Status.Usage → ⊥ }
    ensures unasked { result ≡ Status.QueryRefused → ⊥ }
    ensures unchecked { (fault : CertFault) → result ≡ Status.CheckedNo fault → ⊥ }
    ensures refused { (fault : GraphFault) → result ≡ Status.GraphRefused fault →
        IfSome (F.left shelf.old) (λ told. HasFault told name.now fault) }
    ensures first_fault { result ≡ Status.ReadFault → IfSome (F.left shelf.old) (λ told.
        IsUnjudged told name.now (F.left shelf.new)
        ⊎ (IsAccepted (F.left shelf.old) name.now × HasRisen (S.faults input.old) (S.faults input.new))) }
    ensures long { result ≡ Status.InputLong → IfTold (S.left input.old) (S.left input.new) (λ text rest. IsLong text) }
    ensures unwritten { IsRefusal result → output.new ≡ output.old }
    ensures unstarted { F.faults shelf.new ≢ F.faults shelf.old → output.new ≡ output.old }
    ensures unread { F.faults shelf.new ≢ F.faults shelf.old → input.new ≡ input.old }
    ensures complete { IsAccepted (F.left shelf.old) name.now →
        (HasRisen (F.faults shelf.old) (F.faults shelf.new) → ⊥) →
        (HasRisen (S.faults input.old) (S.faults input.new) → ⊥) →
        (HasRisen (K.faults output.old) (K.faults output.new) → ⊥) → IsWhole result }
    ensures named { F.picked shelf.new ≡ with_name name.now (F.picked shelf.old) }
    ensures shelf_quiet { result ≢ Status.ReadFault → F.faults shelf.new ≡ F.faults shelf.old }
    ensures input_quiet { result ≢ Status.ReadFault → S.faults input.new ≡ S.faults input.old }
    ensures output_quiet { result ≢ Status.WriteFault → K.faults output.new ≡ K.faults output.old }
    ensures read_cause { result ≡ Status.ReadFault →
        HasRisen (F.faults shelf.old) (F.faults shelf.new) ⊎ HasRisen (S.faults input.old) (S.faults input.new) }
    ensures write_cause { result ≡ Status.WriteFault → HasRisen (K.faults output.old) (K.faults output.new) }
    ensures shelf_count { F.faults shelf.old ≤ F.faults shelf.new }
    ensures input_count { S.faults input.old ≤ S.faults input.new }
    ensures output_count { K.faults output.old ≤ K.faults output.new }
{
    let graph = match read_named(alloc, name, shelf) {
        Ok(graph) => graph,
        Err(error) => return ends_as(error),
    };
    match Prepared::from_file(rt, alloc, graph) {
        Ok(version) => serve(rt, alloc, version, input, output),
        Err(_) => Status::NoMemory,
    }
}
