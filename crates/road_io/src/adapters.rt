ghost use Rattle.std.specs.Prelude.{◌≡◌, ◌≢◌, ◌≤◌, OnOk, None};
ghost use Rattle.std.specs.Io.{ReadsAtMost};
ghost use Rattle.std.specs.Io.KnownBytes.{Appends};
ghost use Rattle.road_io.specs.Count.{HasRisen};
ghost use Rattle.road_io.specs.Source.{Reads};
ghost use Rattle.road_io.specs.Adapters.{answer_of};

use crate::reading::{Read, Source};
use crate::shelves::{Picked, Shelf};
use crate::writing::{Put, Sink};
use std::fs::File;
use std::io;
use std::io::{Read as _, Write as _};
use std::rt::Files;

/// The files of the system, by their paths. A path that can't be opened is a fault. An open file is
/// closed at the next pick that opens one, or where the shelf is dropped.
#[derive(Drop)]
pub struct FileShelf<R: Files + Drop> {
    rt: R,
    file: Option<R::File>,
    faults: u64,
}

impl<R: Files + Drop> FileShelf<R> {
    /// A shelf of which no file is open. A reference to the runtime serves as `rt` too.
    pub fn new(rt: R) -> Self
        ensures { ⟦<FileShelf<R> as Source>⟧.faults result ≡ 0 }
    {
        FileShelf {
            rt,
            file: None,
            faults: 0,
        }
    }
}

impl<R: Files + Drop> Source for FileShelf<R> {
    ghost left = { λ _. None };

    ghost faults = { λ s. s.faults };

    ghost picked = { λ _. None };

    fn read(&mut self, room: &mut [u8]) -> Read {
        match &mut self.file {
            Some(file) => {
                let read = file.read(room);
                answer(read, room, &mut self.faults)
            }
            None => Read::End,
        }
    }
}

impl<R: Files + Drop> Shelf for FileShelf<R> {
    fn pick(&mut self, name: &str) -> Picked {
        match File::open(&self.rt, name) {
            Ok(file) => {
                self.file = Some(file);
                Picked::Ready
            }
            Err(_) => {
                self.faults = self.faults.saturating_add(1);
                Picked::Failed
            }
        }
    }
}

/// Standard input.
#[derive(Drop)]
pub struct StdinSource<R: Input> {
    reader: R::Reader,
    faults: u64,
}

impl<R: Input> StdinSource<R> {
    /// Standard input as the runtime gives it, from where it stands.
    pub fn new(rt: &R) -> Self
        ensures { ⟦<StdinSource<R> as Source>⟧.faults result ≡ 0 }
    {
        StdinSource {
            reader: rt.reader(),
            faults: 0,
        }
    }
}

impl<R: Input> Source for StdinSource<R> {
    ghost left = { λ _. None };

    ghost faults = { λ s. s.faults };

    ghost picked = { λ _. None };

    fn read(&mut self, room: &mut [u8]) -> Read {
        let read = self.reader.read(room);
        answer(read, room, &mut self.faults)
    }
}

/// Standard output. Each piece is written in one call of the system, where the system takes it
/// whole, and is flushed.
#[derive(Drop)]
pub struct StdoutSink<'a, R: Print> {
    writer: io::Printer<'a, R>,
    faults: u64,
}

impl<'a, R: Print> StdoutSink<'a, R> {
    /// Standard output as the runtime gives it.
    pub fn new(rt: &'a R) -> Self
        ensures { ⟦<StdoutSink<'a, R> as Sink>⟧.faults result ≡ 0 }
    {
        StdoutSink {
            writer: io::writer(rt),
            faults: 0,
        }
    }
}

impl<R: Print> Sink for StdoutSink<'_, R> {
    ghost written = { λ _. None };

    ghost faults = { λ s. s.faults };

    fn write(&mut self, piece: &[u8]) -> Put {
        match write_whole(&mut self.writer, piece) {
            Ok(()) => Put::Done,
            Err(_) => {
                self.faults = self.faults.saturating_add(1);
                Put::Failed
            }
        }
    }
}

/// What a read of the system says, with its failure counted.
fn answer(read: io::Result<usize>, room: &[u8], faults: &mut u64) -> Read
    requires { ReadsAtMost read room.now }
    ensures answer { result ≡ answer_of read }
    ensures reads { Reads room.now None None result }
    ensures count { faults.old ≤ faults.new }
    ensures cause { result ≡ Read.Failed → HasRisen faults.old faults.new }
    ensures quiet { result ≢ Read.Failed → faults.new ≡ faults.old }
{
    match read {
        Ok(0) => Read::End,
        Ok(count) => Read::Took(count),
        Err(_) => {
            *faults = faults.saturating_add(1);
            Read::Failed
        }
    }
}

/// Writes the whole piece and hands it on; a writer that takes none of what is left has failed.
fn write_whole<W: io::Write>(writer: &mut W, piece: &[u8]) -> io::Result<()>
    ensures { OnOk result (Appends (W.contents writer.old) (W.contents writer.new) piece.now) }
{
    writer.write_all(piece)?;
    writer.flush()
}
