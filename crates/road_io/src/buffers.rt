//! Bytes that are kept for a later write.
//!
//! `Gathered` takes memory as it grows, and is a sink itself: it is for a text that is handed on whole, or not at all
//! where there is no memory for it, as a reply. `Pending` has a fixed room in itself and takes no memory: it is for a
//! long text that goes on in pieces, as a graph, and whoever puts bytes into it sees to it that they have room.

ghost use Rattle.std.specs.Prelude.{◌≡◌, ◌≢◌, ◌+◌, ◌≤◌, [], ◌++◌, Some, length};
ghost use Rattle.road_io.specs.Told.{text_told};
ghost use Rattle.road_io.specs.Sink.{Writes};
ghost use Rattle.road_io.specs.Count.{HasRisen};
ghost use Rattle.road_io.specs.declared.buffers.TheConstants.{MOST_PENDING};

use crate::writing::{Put, Sink};
use std::alloc::Global;

/// The most bytes that a [`Pending`] keeps.
pub const MOST_PENDING: usize = 8192;

/// A sink that keeps what is written to it, to be handed on in one piece. A piece for which there is no memory is
/// refused whole.
#[derive(Drop)]
pub struct Gathered {
    bytes: Vec<u8>,
    refused: u64,
}

impl Gathered {
    ghost use Rattle.road_io.specs.Buffers.{gathered, refusals};

    /// Nothing yet. Takes no memory.
    pub fn new(alloc: Global) -> Gathered
        ensures { gathered result ≡ [] }
    {
        Gathered {
            bytes: Vec::new(alloc),
            refused: 0,
        }
    }

    /// What was written.
    pub fn bytes(&self) -> &[u8]
        ensures { result.now ≡ gathered self.now }
    {
        self.bytes.as_slice()
    }

    /// Drops the bytes, and keeps their memory for what comes.
    pub fn clear(&mut self)
        ensures nothing { gathered self.new ≡ [] }
        ensures count { refusals self.new ≡ refusals self.old }
    {
        self.bytes.clear();
    }
}

impl Sink for Gathered {
    ghost use Rattle.road_io.specs.Buffers.{gathered, refusals};

    ghost written = { λ s. Some (text_told (gathered s)) };

    ghost faults = { λ s. refusals s };

    fn write(&mut self, piece: &[u8]) -> Put {
        match self.bytes.extend_from_slice(piece) {
            Ok(()) => Put::Done,
            Err(_) => {
                self.refused = self.refused.saturating_add(1);
                Put::Failed
            }
        }
    }
}

/// Bytes that were put together and are still to be written. It takes no memory but its own 8 KB.
#[derive(Drop)]
pub struct Pending {
    room: [u8; MOST_PENDING],
    used: usize,
    ghost within: { used ≤ MOST_PENDING },
}

impl Pending {
    ghost use Rattle.road_io.specs.Buffers.{pending, SendsPiece};

    /// Nothing yet.
    pub fn new() -> Pending
        ensures empty { pending result ≡ [] }
        ensures used { result.used ≡ 0 }
    {
        Pending {
            room: [0; MOST_PENDING],
            used: 0,
        }
    }

    /// Puts a piece after what is there.
    pub fn push(&mut self, piece: &[u8])
        requires { self.old.used + length piece.now ≤ MOST_PENDING }
        ensures text { pending self.new ≡ pending self.old ++ piece.now }
        ensures used { self.new.used ≡ self.old.used + length piece.now }
    {
        let from = self.used;
        let to = from + piece.len();
        self.room[from..to].copy_from_slice(piece);
        self.used = to;
    }

    /// Writes what is there, after which nothing is.
    pub fn send<K: Sink>(&mut self, sink: &mut K) -> Put
        ensures writes { Writes (pending self.old) (K.written sink.old) (K.written sink.new) result }
        ensures empty { self.new.used ≡ 0 }
        ensures count { K.faults sink.old ≤ K.faults sink.new }
        ensures cause { result ≡ Put.Failed → HasRisen (K.faults sink.old) (K.faults sink.new) }
        ensures quiet { result ≢ Put.Failed → K.faults sink.new ≡ K.faults sink.old }
    {
        let used = self.used;
        self.used = 0;
        sink.write(&self.room[..used])
    }

    /// Writes what is there where `most` further bytes might find no room.
    pub fn make_room<K: Sink>(&mut self, sink: &mut K, most: usize) -> Put
        requires { most ≤ MOST_PENDING }
        ensures room { self.new.used + most ≤ MOST_PENDING }
        ensures sent { SendsPiece (pending self.old) (pending self.new)
            (K.written sink.old) (K.written sink.new) result }
        ensures count { K.faults sink.old ≤ K.faults sink.new }
        ensures cause { result ≡ Put.Failed → HasRisen (K.faults sink.old) (K.faults sink.new) }
        ensures quiet { result ≢ Put.Failed → K.faults sink.new ≡ K.faults sink.old }
    {
        if self.used + most <= MOST_PENDING {
            Put::Done
        } else {
            self.send(sink)
        }
    }
}
