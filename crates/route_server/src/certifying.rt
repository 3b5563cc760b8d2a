//! The command that writes a certificate.

ghost use Rattle.std.specs.Prelude.{◌≡◌, ◌≢◌, ◌≤◌, ◌⊎◌, ◌↔◌, None, Some, IfOk, IfSome};
ghost use Rattle.certificate_text.specs.declared.fault.CertFault.{CertFault};
ghost use Rattle.road_io.specs.Told.{IfTold};
ghost use Rattle.road_io.specs.Count.{HasRisen};
ghost use Rattle.road_io.specs.Buffers.{gathered};
ghost use Rattle.road_io.specs.Shelf.{with_name};
ghost use Rattle.dimacs_reader.specs.declared.fault.GraphFault.{GraphFault};
ghost use Rattle.road_model.specs.Graph.{IsVertex};
ghost use Rattle.road_model.specs.Queries.{usual};
ghost use Rattle.route_engine.specs.Lineage.{graph_of};
ghost use Rattle.route_server.specs.Certifying.{Certifies, CertifiesFile, IsCertificateOf, IsCertified};
ghost use Rattle.route_server.specs.Causes.{AreEnds, HasFault, IsEarly, IsInside, IsOutside, IsUnjudged, IsWhole};

use crate::graphs::ends_by;
use crate::load::{ends_as, read_named};
use crate::status::Status;
use crate::words::Ends;
use certificate_text::{Certificate, put_certificate};
use certify::certificate_of;
use road_io::{Gathered, Put, Shelf, Sink};
use road_model::{GraphFile, NoMemory, Query, Vertex};
use route_engine::{Prepared, Work};
use std::alloc::{AllocError, Global};
use std::thread::Threads;

/// The vertex of a number, where a graph of so many vertices has it.
fn vertex_of(vertices: u32, number: u64) -> Option<Vertex>
    ensures inside { IfSome result (λ v. (v ≡ number) × IsVertex vertices number) }
    ensures outside { result ≡ None → IsVertex vertices number → ⊥ }
{
    if 1 <= number && number <= u64::from(vertices) {
        Some(Vertex(number as u32))
    } else {
        None
    }
}

/// Plans the query between two vertices with the usual ratios, and gathers the evidence that the plan is its answer.
fn certificate_between<R: Threads + Sync>(
    rt: &R,
    alloc: Global,
    version: &Prepared,
    from: Vertex,
    to: Vertex,
) -> Result<Certificate, NoMemory>
    requires source { IsVertex (graph_of version.now).vertices from }
    requires target { IsVertex (graph_of version.now).vertices to }
    ensures { IfOk result (IsCertificateOf (graph_of version.now) (usual from to)) }
{
    let query = Query::usual(from, to);
    let mut work = Work::new(alloc);
    let answer = version.plan_counted(rt, alloc, &query, &mut work)?;
    let mut oracle = version.oracle(alloc, &mut work)?;
    let certificate = certificate_of(alloc, version.star(), &mut oracle, &query, &answer)?;
    Ok(certificate)
}

/// The text of that certificate, put together whole.
fn text_between<R: Threads + Sync>(
    rt: &R,
    alloc: Global,
    version: &Prepared,
    from: Vertex,
    to: Vertex,
) -> Result<Gathered, NoMemory>
    requires source { IsVertex (graph_of version.now).vertices from }
    requires target { IsVertex (graph_of version.now).vertices to }
    ensures { IfOk result (λ text. IsCertified (graph_of version.now) (record { from = from; to = to }) (gathered text)) }
{
    let certificate = certificate_between(rt, alloc, version, from, to)?;
    let mut text = Gathered::new(alloc);
    match put_certificate(&mut text, &certificate) {
        Put::Done => Ok(text),
        Put::Failed => Err(AllocError),
    }
}

/// Writes the certificate of the query between the ends, where the graph has both.
fn certify<R: Threads + Sync, K: Sink>(
    rt: &R,
    alloc: Global,
    graph: GraphFile,
    ends: Ends,
    output: &mut K,
) -> Status
    ensures certifies { IfTold (K.written output.old) (K.written output.new) (λ out now.
        Certifies graph ends out now result) }
    ensures known { result ≡ Status.Usage → ⊥ }
    ensures unchecked { (fault : CertFault) → result ≡ Status.CheckedNo fault → ⊥ }
    ensures inside { result ≡ Status.InputLong → ⊥ }
    ensures accepted { (fault : GraphFault) → result ≡ Status.GraphRefused fault → ⊥ }
    ensures read { result ≡ Status.ReadFault → ⊥ }
    ensures outside { result ≡ Status.QueryRefused ↔ (AreEnds graph ends → ⊥) }
    ensures unwritten { IsEarly result → output.new ≡ output.old }
    ensures complete { AreEnds graph ends →
        (HasRisen (K.faults output.old) (K.faults output.new) → ⊥) → IsWhole result }
    ensures count { K.faults output.old ≤ K.faults output.new }
    ensures cause { result ≡ Status.WriteFault → HasRisen (K.faults output.old) (K.faults output.new) }
    ensures quiet { result ≢ Status.WriteFault → K.faults output.new ≡ K.faults output.old }
{
    let vertices = graph.vertices();
    let Some(from) = vertex_of(vertices, ends.from) else {
        return Status::QueryRefused;
    };
    let Some(to) = vertex_of(vertices, ends.to) else {
        return Status::QueryRefused;
    };
    let version = match Prepared::from_file(rt, alloc, graph) {
        Ok(version) => version,
        Err(_) => return Status::NoMemory,
    };
    match text_between(rt, alloc, &version, from, to) {
        Ok(text) => ends_by(output.write(text.bytes())),
        Err(_) => Status::NoMemory,
    }
}

/// Reads a graph file, and writes the certificate of the query between the ends with the usual ratios.
///
/// The graph's fault goes first, and then an end that is no vertex. It takes the time and the memory of a version, and those
/// of a plan and of its certificate, whose text is put together whole and written at once; the questions of the tests are
/// answered as those of a plan.
pub fn certify_named<R: Threads + Sync, F: Shelf, K: Sink>(
    rt: &R,
    alloc: Global,
    name: &str,
    ends: Ends,
    shelf: &mut F,
    output: &mut K,
) -> Status
    ensures certifies { IfSome (F.left shelf.old) (λ told.
        IfTold (K.written output.old) (K.written output.new) (λ out now.
        CertifiesFile (told.files name.now) ends out now result)) }
    ensures known { result ≡ Status.Usage → ⊥ }
    ensures unchecked { (fault : CertFault) → result ≡ Status.CheckedNo fault → ⊥ }
    ensures inside { result ≡ Status.InputLong → ⊥ }
    ensures refused { (fault : GraphFault) → result ≡ Status.GraphRefused fault →
        IfSome (F.left shelf.old) (λ told. HasFault told name.now fault) }
    ensures outside { result ≡ Status.QueryRefused →
        IfSome (F.left shelf.old) (λ told. IsOutside (Some told) name.now ends) }
    ensures first_fault { result ≡ Status.ReadFault →
        IfSome (F.left shelf.old) (λ told. IsUnjudged told name.now (F.left shelf.new)) }
    ensures unwritten { IsEarly result → output.new ≡ output.old }
    ensures unstarted { F.faults shelf.new ≢ F.faults shelf.old → output.new ≡ output.old }
    ensures complete { IsInside (F.left shelf.old) name.now ends →
        (HasRisen (F.faults shelf.old) (F.faults shelf.new) → ⊥) →
        (HasRisen (K.faults output.old) (K.faults output.new) → ⊥) → IsWhole result }
    ensures complete_outside { IsOutside (F.left shelf.old) name.now ends →
        (HasRisen (F.faults shelf.old) (F.faults shelf.new) → ⊥) →
        (result ≡ Status.QueryRefused) ⊎ (result ≡ Status.NoMemory) }
    ensures named { F.picked shelf.new ≡ with_name name.now (F.picked shelf.old) }
    ensures read_count { F.faults shelf.old ≤ F.faults shelf.new }
    ensures read_cause { result ≡ Status.ReadFault → HasRisen (F.faults shelf.old) (F.faults shelf.new) }
    ensures read_quiet { result ≢ Status.ReadFault → F.faults shelf.new ≡ F.faults shelf.old }
    ensures write_count { K.faults output.old ≤ K.faults output.new }
    ensures write_cause { result ≡ Status.WriteFault → HasRisen (K.faults output.old) (K.faults output.new) }
    ensures write_quiet { result ≢ Status.WriteFault → K.faults output.new ≡ K.faults output.old }
{
    match read_named(alloc, name, shelf) {
        Ok(graph) => certify(rt, alloc, graph, ends, output),
        Err(error) => ends_as(error),
    }
}
