ghost use Rattle.std.specs.Prelude.{◌≡◌, ◌≢◌, ℕ, ◌<◌, ◌≤◌, List, Option, length};
ghost use Rattle.road_io.specs.Told.{Told};
ghost use Rattle.road_io.specs.Count.{HasRisen};
ghost use Rattle.road_io.specs.Source.{Reads};

/// What one read gave.
#[derive(Clone, Copy, Debug, PartialEq, Eq)]
pub enum Read {
    /// So many bytes, at least one, at the beginning of the room.
    Took(usize),
    /// Nothing, since nothing is left.
    End,
    /// Nothing, since the read failed. What was left is still left.
    Failed,
}

/// Gives bytes, piece by piece, until it is at its end.
///
/// A generic caller states its own clauses with `IfTold` over `left`. A shelf can then be read
/// through it and still keep its files.
pub trait Source {
    // What is still to be read, if the source tells it.
    ghost left: { Self → Option Told };

    // How often a call of it failed.
    ghost faults: { Self → ℕ };

    // The names that it was asked for as a shelf, if it tells them.
    ghost picked: { Self → Option (List (List ℕ)) };

    /// Reads what comes next into the beginning of `room`; how much of it one read takes is the
    /// source's choice. The rest of `room` may be overwritten too.
    fn read(&mut self, room: &mut [u8]) -> Read
        requires { 0 < length room.old }
        ensures reads { Reads room.new (left self.old) (left self.new) result }
        ensures count { faults self.old ≤ faults self.new }
        ensures cause { result ≡ Read.Failed → HasRisen (faults self.old) (faults self.new) }
        ensures quiet { result ≢ Read.Failed → faults self.new ≡ faults self.old }
        ensures unpicked { picked self.new ≡ picked self.old };
}

impl<S: Source> Source for &mut S {
    ghost left = { λ s. S.left s.now };

    ghost faults = { λ s. S.faults s.now };

    ghost picked = { λ s. S.picked s.now };

    fn read(&mut self, room: &mut [u8]) -> Read {
        (**self).read(room)
    }
}
