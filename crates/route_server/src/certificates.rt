//! The command that rechecks a certificate.

ghost use Rattle.std.specs.Prelude.{◌≡◌, ◌≢◌, ◌≤◌, ◌⊎◌, Err, IfSome};
ghost use Rattle.road_io.specs.Told.{IfTold};
ghost use Rattle.road_io.specs.Count.{HasRisen};
ghost use Rattle.road_io.specs.Shelf.{with_name};
ghost use Rattle.road_text.specs.Pieces.{put_of, Appends};
ghost use Rattle.dimacs_reader.specs.declared.fault.GraphFault.{GraphFault};
ghost use Rattle.route_server.specs.Checking.{answer_text, no_text, yes_text, ends_with, IsAnswered, Judges, SaysFile};
ghost use Rattle.route_server.specs.Causes.{HasFault, IsAccepted, IsEarly, IsThere, IsUnjudged, IsWhole};

use crate::load::{ends_as, read_named};
use crate::status::Status;
use certificate_text::{CertError, CertFault, read_certificate};
use forward_star::Star;
use recheck::{Checked, recheck};
use road_io::{Gathered, Picked, Put, Shelf, Sink};
use road_text::{SinkFailed, put, put_numbered};
use std::alloc::Global;

/// Writes the line of an accepted certificate.
fn put_yes<K: Sink>(sink: &mut K, listed: u64) -> Result<(), SinkFailed>
    ensures { Appends K.written K.faults (yes_text listed) sink.old sink.new (put_of result) }
{
    put_numbered(sink, b"yes ", listed)?;
    put(sink, b"\n")
}

/// Writes the line of a refused certificate.
fn put_no<K: Sink>(sink: &mut K, fault: &CertFault) -> Result<(), SinkFailed>
    ensures { Appends K.written K.faults (no_text fault.now) sink.old sink.new (put_of result) }
{
    put_numbered(sink, b"no ", fault.line)?;
    put(sink, b" ")?;
    put(sink, fault.kind.word().as_bytes())?;
    put(sink, b"\n")
}

/// Writes the line of an answer.
fn put_answer<K: Sink>(sink: &mut K, answer: &Checked) -> Result<(), SinkFailed>
    ensures { Appends K.written K.faults (answer_text answer.now) sink.old sink.new (put_of result) }
{
    match answer {
        Checked::Yes { listed } => put_yes(sink, *listed),
        Checked::No(fault) => put_no(sink, fault),
    }
}

/// How a run ends that wrote the line of an answer.
fn ends_with(answer: Checked) -> Status
    ensures { result ≡ ends_with answer }
{
    match answer {
        Checked::Yes { .. } => Status::Done,
        Checked::No(fault) => Status::CheckedNo(fault),
    }
}

/// Writes the line of an answer in one piece.
fn say<K: Sink>(alloc: Global, answer: Checked, output: &mut K) -> Status
    ensures answered { IfTold (K.written output.old) (K.written output.new) (λ out now. IsAnswered answer out now result) }
    ensures whole { (HasRisen (K.faults output.old) (K.faults output.new) → ⊥) → IsWhole result }
    ensures early { IsEarly result → output.new ≡ output.old }
    ensures read { result ≡ Status.ReadFault → ⊥ }
    ensures refused { (fault : GraphFault) → result ≡ Status.GraphRefused fault → ⊥ }
    ensures known { result ≡ Status.Usage → ⊥ }
    ensures unasked { result ≡ Status.QueryRefused → ⊥ }
    ensures inside { result ≡ Status.InputLong → ⊥ }
    ensures count { K.faults output.old ≤ K.faults output.new }
    ensures cause { result ≡ Status.WriteFault → HasRisen (K.faults output.old) (K.faults output.new) }
    ensures quiet { result ≢ Status.WriteFault → K.faults output.new ≡ K.faults output.old }
{
    let mut line = Gathered::new(alloc);
    match put_answer(&mut line, &answer) {
        Ok(()) => match output.write(line.bytes()) {
            Put::Done => ends_with(answer),
            Put::Failed => Status::WriteFault,
        },
        Err(SinkFailed) => Status::NoMemory,
    }
}

/// Reads the named certificate file, and rechecks it against a graph.
fn judge<F: Shelf>(
    alloc: Global,
    star: &Star,
    name: &str,
    shelf: &mut F,
) -> Result<Checked, CertError>
    ensures judges { IfSome (F.left shelf.old) (λ told. Judges star.now (told.files name.now) result) }
    ensures count { F.faults shelf.old ≤ F.faults shelf.new }
    ensures cause { result ≡ Err CertError.ReadFault → HasRisen (F.faults shelf.old) (F.faults shelf.new) }
    ensures quiet { result ≢ Err CertError.ReadFault → F.faults shelf.new ≡ F.faults shelf.old }
    ensures named { F.picked shelf.new ≡ with_name name.now (F.picked shelf.old) }
{
    match shelf.pick(name) {
        Picked::Ready => {}
        Picked::Failed => return Err(CertError::ReadFault),
    }
    let certificate = match read_certificate(alloc, shelf) {
        Ok(certificate) => certificate,
        Err(CertError::Refused(fault)) => return Ok(Checked::No(fault)),
        Err(error) => return Err(error),
    };
    match recheck(alloc, star, &certificate) {
        Ok(answer) => Ok(answer),
        Err(_) => Err(CertError::NoMemory),
    }
}

/// Reads a graph file and a certificate file, and says whether the certificate is right for the graph.
///
/// The graph is read first, and its fault goes first. It takes the memory of a `Star`, and that of the certificate.
pub fn recheck_named<F: Shelf, K: Sink>(
    alloc: Global,
    name: &str,
    other: &str,
    shelf: &mut F,
    output: &mut K,
) -> Status
    ensures says { IfSome (F.left shelf.old) (λ told.
        IfTold (K.written output.old) (K.written output.new) (λ out now.
        SaysFile (told.files name.now) (told.files other.now) out now result)) }
    ensures known { result ≡ Status.Usage → ⊥ }
    ensures unasked { result ≡ Status.QueryRefused → ⊥ }
    ensures inside { result ≡ Status.InputLong → ⊥ }
    ensures refused { (fault : GraphFault) → result ≡ Status.GraphRefused fault →
        IfSome (F.left shelf.old) (λ told. HasFault told name.now fault) }
    ensures first_fault { result ≡ Status.ReadFault → IfSome (F.left shelf.old) (λ told.
        IsUnjudged told name.now (F.left shelf.new) ⊎ IsAccepted (F.left shelf.old) name.now) }
    ensures unwritten { IsEarly result → output.new ≡ output.old }
    ensures unstarted { F.faults shelf.new ≢ F.faults shelf.old → output.new ≡ output.old }
    ensures complete { IsAccepted (F.left shelf.old) name.now → IsThere (F.left shelf.old) other.now →
        (HasRisen (F.faults shelf.old) (F.faults shelf.new) → ⊥) →
        (HasRisen (K.faults output.old) (K.faults output.new) → ⊥) → IsWhole result }
    ensures named { (F.picked shelf.new ≡ with_name name.now (F.picked shelf.old))
        ⊎ (F.picked shelf.new ≡ with_name other.now (with_name name.now (F.picked shelf.old))) }
    ensures read_count { F.faults shelf.old ≤ F.faults shelf.new }
    ensures read_cause { result ≡ Status.ReadFault → HasRisen (F.faults shelf.old) (F.faults shelf.new) }
    ensures read_quiet { result ≢ Status.ReadFault → F.faults shelf.new ≡ F.faults shelf.old }
    ensures write_count { K.faults output.old ≤ K.faults output.new }
    ensures write_cause { result ≡ Status.WriteFault → HasRisen (K.faults output.old) (K.faults output.new) }
    ensures write_quiet { result ≢ Status.WriteFault → K.faults output.new ≡ K.faults output.old }
{
    let graph = match read_named(alloc, name, shelf) {
        Ok(graph) => graph,
        Err(error) => return ends_as(error),
    };
    let star = match Star::build(alloc, graph) {
        Ok(star) => star,
        Err(_) => return Status::NoMemory,
    };
    match judge(alloc, &star, other, shelf) {
        Ok(answer) => say(alloc, answer, output),
        Err(CertError::ReadFault) => Status::ReadFault,
        Err(_) => Status::NoMemory,
    }
}
