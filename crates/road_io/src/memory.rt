ghost use Rattle.std.specs.Prelude.{◌≡◌, ◌≢◌, ℕ, ◌<◌, ◌≤◌, ◌↔◌, [], ◌++◌, List, Option, None, Some, IsTrue, IsSome, length};
ghost use Rattle.road_io.specs.Told.{text_told};
ghost use Rattle.road_io.specs.Count.{HasRisen};
ghost use Rattle.road_io.specs.Source.{Reads};
ghost use Rattle.road_io.specs.Sink.{Writes};
ghost use Rattle.road_io.specs.Shelf.{Picks};
ghost use Rattle.road_io.specs.Calls.{is_to_fail, one_more};
ghost use Rattle.road_io.specs.Memory.{contents_in, TakesPiece};
ghost use Rattle.road_io.specs.MemForms.{source_left, source_piece, source_calls, sink_bytes, sink_calls, shelf_told, shelf_piece, shelf_calls};

use crate::calls::Calls;
use crate::reading::{Read, Source};
use crate::shelves::{Picked, Shelf};
use crate::texts::{NamedFile, Rest, find_file};
use crate::writing::{Put, Sink};
use std::alloc::Global;

/// A text in memory as a source, of which chosen calls fail.
#[derive(Drop)]
pub struct MemSource<'a> {
    rest: Rest<'a>,
    calls: Calls<'a>,
}

impl<'a> MemSource<'a> {
    /// A source that gives `bytes` in pieces of at most `piece` bytes, or in as many as fit where
    /// `piece` is 0. The calls whose numbers are in `failing`, counted from 0, fail.
    pub fn new(bytes: &'a [u8], piece: usize, failing: &'a [u64]) -> Self
        ensures left { source_left result ≡ bytes.now }
        ensures piece { source_piece result ≡ piece }
        ensures failing { (source_calls result).failing.now ≡ failing.now }
        ensures made { (source_calls result).made ≡ 0 }
        ensures faults { (source_calls result).faults ≡ 0 }
    {
        MemSource {
            rest: Rest::new(bytes, piece),
            calls: Calls::new(failing),
        }
    }

    /// How many calls failed.
    pub fn faults(&self) -> u64
        ensures { result ≡ (source_calls self.now).faults }
    {
        self.calls.faults()
    }
}

impl Source for MemSource<'_> {
    ghost left = { λ s. Some (text_told (source_left s)) };

    ghost faults = { λ s. (source_calls s).faults };

    ghost picked = { λ _. None };

    fn read(&mut self, room: &mut [u8]) -> Read
        requires { 0 < length room.old }
        ensures reads { Reads room.new (Some (text_told (source_left self.old))) (Some (text_told (source_left self.new))) result }
        ensures count { (source_calls self.old).faults ≤ (source_calls self.new).faults }
        ensures cause { result ≡ Read.Failed → HasRisen (source_calls self.old).faults (source_calls self.new).faults }
        ensures quiet { result ≢ Read.Failed → (source_calls self.new).faults ≡ (source_calls self.old).faults }
        ensures fails { (result ≡ Read.Failed) ↔ IsTrue (is_to_fail (source_calls self.old)) }
        ensures takes { TakesPiece (source_piece self.old) (length room.old) (source_left self.old) result }
        ensures made { (source_calls self.new).made ≡ one_more (source_calls self.old).made }
        ensures failing { (source_calls self.new).failing.now ≡ (source_calls self.old).failing.now }
        ensures piece { source_piece self.new ≡ source_piece self.old }
    {
        if self.calls.fails() {
            return Read::Failed;
        }
        self.rest.take(room)
    }
}

/// A sink in memory, of which chosen calls fail.
#[derive(Drop)]
pub struct MemSink<'a> {
    bytes: Vec<u8>,
    calls: Calls<'a>,
}

impl<'a> MemSink<'a> {
    /// An empty sink. The calls whose numbers are in `failing`, counted from 0, fail, and so does
    /// a call for whose piece there is no memory; none of them writes anything.
    pub fn new(alloc: Global, failing: &'a [u64]) -> Self
        ensures bytes { sink_bytes result ≡ [] }
        ensures failing { (sink_calls result).failing.now ≡ failing.now }
        ensures made { (sink_calls result).made ≡ 0 }
        ensures faults { (sink_calls result).faults ≡ 0 }
    {
        MemSink {
            bytes: Vec::new(alloc),
            calls: Calls::new(failing),
        }
    }

    /// What was written.
    pub fn bytes(&self) -> &[u8]
        ensures { result.now ≡ sink_bytes self.now }
    {
        self.bytes.as_slice()
    }

    /// How many calls failed.
    pub fn faults(&self) -> u64
        ensures { result ≡ (sink_calls self.now).faults }
    {
        self.calls.faults()
    }
}

impl Sink for MemSink<'_> {
    ghost written = { λ s. Some (text_told (sink_bytes s)) };

    ghost faults = { λ s. (sink_calls s).faults };

    fn write(&mut self, piece: &[u8]) -> Put
        ensures writes { Writes piece.now (Some (text_told (sink_bytes self.old))) (Some (text_told (sink_bytes self.new))) result }
        ensures count { (sink_calls self.old).faults ≤ (sink_calls self.new).faults }
        ensures cause { result ≡ Put.Failed → HasRisen (sink_calls self.old).faults (sink_calls self.new).faults }
        ensures quiet { result ≢ Put.Failed → (sink_calls self.new).faults ≡ (sink_calls self.old).faults }
        ensures fails { IsTrue (is_to_fail (sink_calls self.old)) → result ≡ Put.Failed }
        ensures nothing { result ≡ Put.Failed → sink_bytes self.new ≡ sink_bytes self.old }
        ensures made { (sink_calls self.new).made ≡ one_more (sink_calls self.old).made }
        ensures failing { (sink_calls self.new).failing.now ≡ (sink_calls self.old).failing.now }
    {
        if self.calls.fails() {
            return Put::Failed;
        }
        match self.bytes.extend_from_slice(piece) {
            Ok(()) => Put::Done,
            Err(_) => {
                self.calls.fault();
                Put::Failed
            }
        }
    }
}

/// Files in memory, of which chosen calls fail.
#[derive(Drop)]
pub struct MemShelf<'a> {
    files: &'a [NamedFile<'a>],
    rest: Rest<'a>,
    calls: Calls<'a>,
}

impl<'a> MemShelf<'a> {
    /// A shelf with these files, of which none is current. Reads give pieces of at most `piece`
    /// bytes, or as many as fit where `piece` is 0. The calls whose numbers are in `failing`
    /// fail; picks and reads are counted together, from 0.
    pub fn new(files: &'a [NamedFile<'a>], piece: usize, failing: &'a [u64]) -> Self
        ensures files { (shelf_told result).files ≡ contents_in files.now }
        ensures left { (shelf_told result).bytes ≡ [] }
        ensures piece { shelf_piece result ≡ piece }
        ensures failing { (shelf_calls result).failing.now ≡ failing.now }
        ensures made { (shelf_calls result).made ≡ 0 }
        ensures faults { (shelf_calls result).faults ≡ 0 }
    {
        MemShelf {
            files,
            rest: Rest::new(&[], piece),
            calls: Calls::new(failing),
        }
    }

    /// How many calls failed.
    pub fn faults(&self) -> u64
        ensures { result ≡ (shelf_calls self.now).faults }
    {
        self.calls.faults()
    }
}

impl Source for MemShelf<'_> {
    ghost left = { λ s. Some (shelf_told s) };

    ghost faults = { λ s. (shelf_calls s).faults };

    ghost picked = { λ _. None };

    fn read(&mut self, room: &mut [u8]) -> Read
        requires { 0 < length room.old }
        ensures reads { Reads room.new (Some (shelf_told self.old)) (Some (shelf_told self.new)) result }
        ensures count { (shelf_calls self.old).faults ≤ (shelf_calls self.new).faults }
        ensures cause { result ≡ Read.Failed → HasRisen (shelf_calls self.old).faults (shelf_calls self.new).faults }
        ensures quiet { result ≢ Read.Failed → (shelf_calls self.new).faults ≡ (shelf_calls self.old).faults }
        ensures fails { (result ≡ Read.Failed) ↔ IsTrue (is_to_fail (shelf_calls self.old)) }
        ensures takes { TakesPiece (shelf_piece self.old) (length room.old) (shelf_told self.old).bytes result }
        ensures made { (shelf_calls self.new).made ≡ one_more (shelf_calls self.old).made }
        ensures failing { (shelf_calls self.new).failing.now ≡ (shelf_calls self.old).failing.now }
        ensures piece { shelf_piece self.new ≡ shelf_piece self.old }
    {
        if self.calls.fails() {
            return Read::Failed;
        }
        self.rest.take(room)
    }
}

impl Shelf for MemShelf<'_> {
    fn pick(&mut self, name: &str) -> Picked
        ensures picks { Picks name.now (Some (shelf_told self.old)) (Some (shelf_told self.new)) result }
        ensures count { (shelf_calls self.old).faults ≤ (shelf_calls self.new).faults }
        ensures cause { result ≡ Picked.Failed → HasRisen (shelf_calls self.old).faults (shelf_calls self.new).faults }
        ensures quiet { result ≢ Picked.Failed → (shelf_calls self.new).faults ≡ (shelf_calls self.old).faults }
        ensures fails { IsTrue (is_to_fail (shelf_calls self.old)) → result ≡ Picked.Failed }
        ensures found { result ≡ Picked.Failed → IsSome ((shelf_told self.old).files name.now) → IsTrue (is_to_fail (shelf_calls self.old)) }
        ensures made { (shelf_calls self.new).made ≡ one_more (shelf_calls self.old).made }
        ensures failing { (shelf_calls self.new).failing.now ≡ (shelf_calls self.old).failing.now }
        ensures piece { shelf_piece self.new ≡ shelf_piece self.old }
    {
        if self.calls.fails() {
            return Picked::Failed;
        }
        match find_file(self.files, name) {
            Some(bytes) => {
                self.rest.begin(bytes);
                Picked::Ready
            }
            None => {
                self.calls.fault();
                Picked::Failed
            }
        }
    }
}
