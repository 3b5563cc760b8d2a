//! The commands over grids that a generator makes.

ghost use Rattle.std.specs.Prelude.{◌≡◌, ◌≢◌, ◌≤◌};
ghost use Rattle.certificate_text.specs.declared.fault.CertFault.{CertFault};
ghost use Rattle.road_io.specs.Told.{IfTold};
ghost use Rattle.road_io.specs.Count.{HasRisen};
ghost use Rattle.dimacs_reader.specs.declared.fault.GraphFault.{GraphFault};
ghost use Rattle.grid_maker.specs.Grid.{IsSide};
ghost use Rattle.route_server.specs.Giving.{GivesText, IsPrint};
ghost use Rattle.route_server.specs.Grids.{IsMade, IsSurveyed};
ghost use Rattle.route_server.specs.Causes.{IsEarly, IsWhole};

use crate::graphs::ends_by;
use crate::status::Status;
use crate::words::Grid;
use dimacs_reader::write_graph;
use grid_survey::put_summary;
use road_io::{Gathered, Sink};
use road_model::GraphFile;
use road_text::SinkFailed;
use std::alloc::Global;
use std::thread::Threads;

/// Writes a graph in the canonical form.
fn write<K: Sink>(graph: &GraphFile, output: &mut K) -> Status
    ensures gives { IfTold (K.written output.old) (K.written output.new) (λ out now.
        GivesText (IsPrint graph.now) out now result) }
    ensures known { result ≡ Status.Usage → ⊥ }
    ensures unasked { result ≡ Status.QueryRefused → ⊥ }
    ensures unchecked { (fault : CertFault) → result ≡ Status.CheckedNo fault → ⊥ }
    ensures inside { result ≡ Status.InputLong → ⊥ }
    ensures accepted { (fault : GraphFault) → result ≡ Status.GraphRefused fault → ⊥ }
    ensures read { result ≡ Status.ReadFault → ⊥ }
    ensures unwritten { IsEarly result → output.new ≡ output.old }
    ensures complete { (HasRisen (K.faults output.old) (K.faults output.new) → ⊥) → IsWhole result }
    ensures count { K.faults output.old ≤ K.faults output.new }
    ensures cause { result ≡ Status.WriteFault → HasRisen (K.faults output.old) (K.faults output.new) }
    ensures quiet { result ≢ Status.WriteFault → K.faults output.new ≡ K.faults output.old }
{
    ends_by(write_graph(output, graph))
}

/// Makes a grid, and writes it in the canonical form.
pub fn make<K: Sink>(alloc: Global, grid: Grid, output: &mut K) -> Status
    requires width { IsSide grid.width }
    requires height { IsSide grid.height }
    ensures gives { IfTold (K.written output.old) (K.written output.new) (λ out now.
        GivesText (IsMade grid) out now result) }
    ensures known { result ≡ Status.Usage → ⊥ }
    ensures unasked { result ≡ Status.QueryRefused → ⊥ }
    ensures unchecked { (fault : CertFault) → result ≡ Status.CheckedNo fault → ⊥ }
    ensures inside { result ≡ Status.InputLong → ⊥ }
    ensures accepted { (fault : GraphFault) → result ≡ Status.GraphRefused fault → ⊥ }
    ensures read { result ≡ Status.ReadFault → ⊥ }
    ensures unwritten { IsEarly result → output.new ≡ output.old }
    ensures complete { (HasRisen (K.faults output.old) (K.faults output.new) → ⊥) → IsWhole result }
    ensures write_count { K.faults output.old ≤ K.faults output.new }
    ensures write_cause { result ≡ Status.WriteFault → HasRisen (K.faults output.old) (K.faults output.new) }
    ensures write_quiet { result ≢ Status.WriteFault → K.faults output.new ≡ K.faults output.old }
{
    match grid_maker::make(alloc, grid.seed, grid.width, grid.height) {
        Ok((graph, _)) => write(&graph, output),
        Err(_) => Status::NoMemory,
    }
}

/// Makes a grid, plans queries over it, and writes their summary.
pub fn survey<R: Threads + Sync, K: Sink>(
    rt: &R,
    alloc: Global,
    grid: Grid,
    queries: u32,
    output: &mut K,
) -> Status
    requires width { IsSide grid.width }
    requires height { IsSide grid.height }
    requires few { queries ≤ 10000 }
    ensures gives { IfTold (K.written output.old) (K.written output.new) (λ out now.
        GivesText (IsSurveyed grid queries) out now result) }
    ensures known { result ≡ Status.Usage → ⊥ }
    ensures unasked { result ≡ Status.QueryRefused → ⊥ }
    ensures unchecked { (fault : CertFault) → result ≡ Status.CheckedNo fault → ⊥ }
    ensures inside { result ≡ Status.InputLong → ⊥ }
    ensures accepted { (fault : GraphFault) → result ≡ Status.GraphRefused fault → ⊥ }
    ensures read { result ≡ Status.ReadFault → ⊥ }
    ensures unwritten { IsEarly result → output.new ≡ output.old }
    ensures complete { (HasRisen (K.faults output.old) (K.faults output.new) → ⊥) → IsWhole result }
    ensures write_count { K.faults output.old ≤ K.faults output.new }
    ensures write_cause { result ≡ Status.WriteFault → HasRisen (K.faults output.old) (K.faults output.new) }
    ensures write_quiet { result ≢ Status.WriteFault → K.faults output.new ≡ K.faults output.old }
{
    let Ok(summary) = grid_survey::survey(rt, alloc, grid.seed, grid.width, grid.height, queries)
    else {
        return Status::NoMemory;
    };
    let mut text = Gathered::new(alloc);
    match put_summary(&mut text, &summary) {
        Ok(()) => ends_by(output.write(text.bytes())),
        Err(SinkFailed) => Status::NoMemory,
    }
}
