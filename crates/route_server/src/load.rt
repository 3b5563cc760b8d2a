//! Graph files.

ghost use Rattle.std.specs.Prelude.{◌≡◌, ◌≢◌, ◌≤◌, Err, IfSome};
ghost use Rattle.road_io.specs.Count.{HasRisen};
ghost use Rattle.road_io.specs.Shelf.{with_name};
ghost use Rattle.route_server.specs.Loading.{KeepsFiles, Loads, ends_as};
ghost use Rattle.route_server.specs.Causes.{IsUnjudged};

use crate::status::Status;
use dimacs_reader::{GraphError, read_graph};
use road_io::{Picked, Shelf};
use road_model::GraphFile;
use std::alloc::Global;

/// Reads the named graph file. It takes 16 bytes an arc, and 128 KB while it reads.
pub fn read_named<F: Shelf>(
    alloc: Global,
    name: &str,
    shelf: &mut F,
) -> Result<GraphFile, GraphError>
    ensures loads { IfSome (F.left shelf.old) (λ told. Loads (told.files name.now) result) }
    ensures kept { KeepsFiles (F.left shelf.old) (F.left shelf.new) }
    ensures count { F.faults shelf.old ≤ F.faults shelf.new }
    ensures cause { result ≡ Err GraphError.ReadFault → HasRisen (F.faults shelf.old) (F.faults shelf.new) }
    ensures quiet { result ≢ Err GraphError.ReadFault → F.faults shelf.new ≡ F.faults shelf.old }
    ensures first_fault { result ≡ Err GraphError.ReadFault → IfSome (F.left shelf.old) (λ told.
        IsUnjudged told name.now (F.left shelf.new)) }
    ensures named { F.picked shelf.new ≡ with_name name.now (F.picked shelf.old) }
{
    match shelf.pick(name) {
        Picked::Ready => read_graph(alloc, shelf),
        Picked::Failed => Err(GraphError::ReadFault),
    }
}

/// How a run ends whose graph file couldn't be read.
pub fn ends_as(error: GraphError) -> Status
    ensures { result ≡ ends_as error }
{
    match error {
        GraphError::Refused(fault) => Status::GraphRefused(fault),
        GraphError::ReadFault => Status::ReadFault,
        GraphError::NoMemory => Status::NoMemory,
    }
}
