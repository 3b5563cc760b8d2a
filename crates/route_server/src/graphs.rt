//! The commands that say what a graph file holds.

ghost use Rattle.std.specs.Prelude.{◌≡◌, ◌≢◌, ◌≤◌, IfSome};
ghost use Rattle.certificate_text.specs.declared.fault.CertFault.{CertFault};
ghost use Rattle.road_io.specs.Told.{IfTold};
ghost use Rattle.road_io.specs.Count.{HasRisen};
ghost use Rattle.road_io.specs.Shelf.{with_name};
ghost use Rattle.road_text.specs.Pieces.{put_of, Appends};
ghost use Rattle.dimacs_reader.specs.declared.fault.GraphFault.{GraphFault};
ghost use Rattle.route_server.specs.Giving.{GivesOf, IsCheck, IsPrint, check_text, ends_by};
ghost use Rattle.route_server.specs.Causes.{HasFault, IsAccepted, IsEarly, IsUnjudged, IsWhole};

use crate::load::{ends_as, read_named};
use crate::status::Status;
use dimacs_reader::write_graph;
use road_io::{Gathered, Put, Shelf, Sink};
use road_model::GraphFile;
use road_text::{SinkFailed, put, put_number, put_numbered};
use std::alloc::Global;

/// How a run ends with its last write.
pub fn ends_by(put: Put) -> Status
    ensures { result ≡ ends_by put }
{
    match put {
        Put::Done => Status::Done,
        Put::Failed => Status::WriteFault,
    }
}

/// Writes the line that says how large a graph is.
fn put_check<K: Sink>(sink: &mut K, graph: &GraphFile) -> Result<(), SinkFailed>
    ensures { Appends K.written K.faults (check_text graph.now) sink.old sink.new (put_of result) }
{
    put_numbered(sink, b"graph vertices ", u64::from(graph.vertices()))?;
    put(sink, b" arcs ")?;
    put_number(sink, graph.arcs().len() as u64)?;
    put(sink, b"\n")
}

/// Reads a graph file, and says how large its graph is.
pub fn check<F: Shelf, K: Sink>(alloc: Global, name: &str, shelf: &mut F, output: &mut K) -> Status
    ensures gives { IfSome (F.left shelf.old) (λ told.
        IfTold (K.written output.old) (K.written output.new) (λ out now.
        GivesOf IsCheck (told.files name.now) out now result)) }
    ensures known { result ≡ Status.Usage → ⊥ }
    ensures unasked { result ≡ Status.QueryRefused → ⊥ }
    ensures unchecked { (fault : CertFault) → result ≡ Status.CheckedNo fault → ⊥ }
    ensures inside { result ≡ Status.InputLong → ⊥ }
    ensures refused { (fault : GraphFault) → result ≡ Status.GraphRefused fault →
        IfSome (F.left shelf.old) (λ told. HasFault told name.now fault) }
    ensures first_fault { result ≡ Status.ReadFault →
        IfSome (F.left shelf.old) (λ told. IsUnjudged told name.now (F.left shelf.new)) }
    ensures unwritten { IsEarly result → output.new ≡ output.old }
    ensures unstarted { F.faults shelf.new ≢ F.faults shelf.old → output.new ≡ output.old }
    ensures complete { IsAccepted (F.left shelf.old) name.now →
        (HasRisen (F.faults shelf.old) (F.faults shelf.new) → ⊥) →
        (HasRisen (K.faults output.old) (K.faults output.new) → ⊥) → IsWhole result }
    ensures named { F.picked shelf.new ≡ with_name name.now (F.picked shelf.old) }
    ensures read_count { F.faults shelf.old ≤ F.faults shelf.new }
    ensures read_cause { result ≡ Status.ReadFault → HasRisen (F.faults shelf.old) (F.faults shelf.new) }
    ensures read_quiet { result ≢ Status.ReadFault → F.faults shelf.new ≡ F.faults shelf.old }
    ensures write_count { K.faults output.old ≤ K.faults output.new }
    ensures write_cause { result ≡ Status.WriteFault → HasRisen (K.faults output.old) (K.faults output.new) }
    ensures write_quiet { result ≢ Status.WriteFault → K.faults output.new ≡ K.faults output.old }
{
    let graph = match read_named(alloc, name, shelf) {
        Ok(graph) => graph,
        Err(error) => return ends_as(error),
    };
    let mut line = Gathered::new(alloc);
    match put_check(&mut line, &graph) {
        Ok(()) => ends_by(output.write(line.bytes())),
        Err(SinkFailed) => Status::NoMemory,
    }
}

/// Reads a graph file, and writes its graph in the canonical form.
pub fn print<F: Shelf, K: Sink>(alloc: Global, name: &str, shelf: &mut F, output: &mut K) -> Status
    ensures gives { IfSome (F.left shelf.old) (λ told.
        IfTold (K.written output.old) (K.written output.new) (λ out now.
        GivesOf IsPrint (told.files name.now) out now result)) }
    ensures known { result ≡ Status.Usage → ⊥ }
    ensures unasked { result ≡ Status.QueryRefused → ⊥ }
    ensures unchecked { (fault : CertFault) → result ≡ Status.CheckedNo fault → ⊥ }
    ensures inside { result ≡ Status.InputLong → ⊥ }
    ensures refused { (fault : GraphFault) → result ≡ Status.GraphRefused fault →
        IfSome (F.left shelf.old) (λ told. HasFault told name.now fault) }
    ensures first_fault { result ≡ Status.ReadFault →
        IfSome (F.left shelf.old) (λ told. IsUnjudged told name.now (F.left shelf.new)) }
    ensures unwritten { IsEarly result → output.new ≡ output.old }
    ensures unstarted { F.faults shelf.new ≢ F.faults shelf.old → output.new ≡ output.old }
    ensures complete { IsAccepted (F.left shelf.old) name.now →
        (HasRisen (F.faults shelf.old) (F.faults shelf.new) → ⊥) →
        (HasRisen (K.faults output.old) (K.faults output.new) → ⊥) → IsWhole result }
    ensures named { F.picked shelf.new ≡ with_name name.now (F.picked shelf.old) }
    ensures read_count { F.faults shelf.old ≤ F.faults shelf.new }
    ensures read_cause { result ≡ Status.ReadFault → HasRisen (F.faults shelf.old) (F.faults shelf.new) }
    ensures read_quiet { result ≢ Status.ReadFault → F.faults shelf.new ≡ F.faults shelf.old }
    ensures write_count { K.faults output.old ≤ K.faults output.new }
    ensures write_cause { result ≡ Status.WriteFault → HasRisen (K.faults output.old) (K.faults output.new) }
    ensures write_quiet { result ≢ Status.WriteFault → K.faults output.new ≡ K.faults output.old }
{
    match read_named(alloc, name, shelf) {
        Ok(graph) => ends_by(write_graph(output, &graph)),
        Err(error) => ends_as(error),
    }
}
