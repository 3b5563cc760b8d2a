ghost use Rattle.std.specs.Prelude.{◌≡◌, ◌≢◌, ℕ, ◌≤◌, Option};
ghost use Rattle.road_io.specs.Told.{Told};
ghost use Rattle.road_io.specs.Count.{HasRisen};
ghost use Rattle.road_io.specs.Sink.{Writes};

/// How one write ended.
#[derive(Clone, Copy, Debug, PartialEq, Eq)]
pub enum Put {
    /// The whole piece was written.
    Done,
    /// The write failed. A prefix of the piece was written, which may be nothing or all of it.
    Failed,
}

/// Takes bytes, piece by piece.
pub trait Sink {
    // What was written, if the sink tells it.
    ghost written: { Self → Option Told };

    // How often a call of it failed.
    ghost faults: { Self → ℕ };

    /// Writes the whole piece after what was written before. A sink may be written to again after
    /// a failure.
    fn write(&mut self, piece: &[u8]) -> Put
        ensures writes { Writes piece.now (written self.old) (written self.new) result }
        ensures count { faults self.old ≤ faults self.new }
        ensures cause { result ≡ Put.Failed → HasRisen (faults self.old) (faults self.new) }
        ensures quiet { result ≢ Put.Failed → faults self.new ≡ faults self.old };
}

impl<K: Sink> Sink for &mut K {
    ghost written = { λ s. K.written s.now };

    ghost faults = { λ s. K.faults s.now };

    fn write(&mut self, piece: &[u8]) -> Put {
        (**self).write(piece)
    }
}
