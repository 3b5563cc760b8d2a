//! A graph out of a source.

ghost use Rattle.std.specs.Prelude.{◌≡◌, ◌≢◌, ◌≤◌, Err};
ghost use Rattle.road_io.specs.Told.{IfTold};
ghost use Rattle.road_io.specs.Count.{HasRisen};
ghost use Rattle.dimacs_reader.specs.Reads.{ReadsGraph};

use crate::builder::{Builder, Gathered};
use crate::fault::GraphError;
use crate::line::{MAX_FILE, MAX_LINE};
use road_io::Source;
use road_model::GraphFile;
use road_text::LineReader;
use std::alloc::Global;

/// Reads a graph file to its end, or to its first fault.
///
/// It takes 16 bytes for each arc of the problem line and 128 KB besides, and time in proportion
/// to the file. `ReadFault` comes where a read failed and no line that was read whole before it has a
/// fault, and only there; what was read by then is lost.
pub fn read_graph<S: Source>(alloc: Global, source: &mut S) -> Result<GraphFile, GraphError>
    ensures reads { IfTold (S.left source.old) (S.left source.new)
        (λ text rest. ReadsGraph text rest result) }
    ensures count { S.faults source.old ≤ S.faults source.new }
    ensures cause { result ≡ Err GraphError.ReadFault
        → HasRisen (S.faults source.old) (S.faults source.new) }
    ensures quiet { result ≢ Err GraphError.ReadFault → S.faults source.new ≡ S.faults source.old }
    ensures unpicked { S.picked source.new ≡ S.picked source.old }
{
    let mut reader = LineReader::new(alloc, MAX_LINE, MAX_FILE)?;
    let mut builder = Builder::new(alloc);
    'lines: loop {
        let advance = reader.advance(source);
        match builder.gather(&reader, advance) {
            Ok(Gathered::More) => {}
            Ok(Gathered::All) => return builder.finish(),
            Err(error) => return Err(error),
        }
    }
}
