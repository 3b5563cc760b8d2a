ghost use Rattle.std.specs.Prelude.{◌≡◌, ◌≢◌, ◌≤◌};
ghost use Rattle.road_io.specs.Count.{HasRisen};
ghost use Rattle.road_io.specs.Shelf.{Picks, with_name};

use crate::reading::Source;

/// Whether the named file is now the current one.
#[derive(Clone, Copy, Debug, PartialEq, Eq)]
pub enum Picked {
    /// It is, at its start.
    Ready,
    /// It isn't: there is no such file, or it couldn't be opened. The file that was current still is.
    Failed,
}

/// Files by name, of which one at a time is current and is read as a source. Before the first pick
/// none is, and a read is at its end.
pub trait Shelf: Source {
    /// Makes the named file the current one, at its start.
    fn pick(&mut self, name: &str) -> Picked
        ensures picks { Picks name.now (Self.left self.old) (Self.left self.new) result }
        ensures count { Self.faults self.old ≤ Self.faults self.new }
        ensures cause { result ≡ Picked.Failed → HasRisen (Self.faults self.old) (Self.faults self.new) }
        ensures quiet { result ≢ Picked.Failed → Self.faults self.new ≡ Self.faults self.old }
        ensures picked { Self.picked self.new ≡ with_name name.now (Self.picked self.old) };
}

impl<F: Shelf> Shelf for &mut F {
    fn pick(&mut self, name: &str) -> Picked {
        (**self).pick(name)
    }
}
