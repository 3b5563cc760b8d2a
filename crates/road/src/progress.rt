//! What is said on a terminal's standard error while a graph is read and made ready. In the first five seconds nothing
//! is, so that a short start is silent.

use road_io::{Picked, Read, Shelf, Source};
use std::rt::Clock;
use std::time::Instant;

/// How many seconds pass before a line, and from one line to the next.
const PATIENCE: u64 = 5;

/// The time since the start, where someone looks at a terminal.
#[derive(Clone, Copy)]
pub struct Watch {
    start: Option<Instant>,
}

impl Watch {
    /// A watch that starts now. Where standard error is no terminal it stands.
    pub fn start<R: Clock>(rt: &R, is_terminal: bool) -> Watch {
        let start = if is_terminal {
            Instant::now(rt).ok()
        } else {
            None
        };
        Watch { start }
    }

    /// The whole seconds since the start, and 0 where the watch stands.
    fn seconds<R: Clock>(&self, rt: &R) -> u64 {
        let Some(start) = self.start else {
            return 0;
        };
        match start.elapsed(rt) {
            Ok(passed) => passed.as_secs(),
            Err(_) => 0,
        }
    }
}

/// How much was read, and when that was said last.
#[derive(Drop)]
struct Meter {
    watch: Watch,
    bytes: u64,
    // the second of the last line
    said: u64,
}

impl Meter {
    /// Counts what a read gave, and says now and then how much there is.
    fn note<R: Clock + Eprint>(&mut self, rt: &R, read: Read) {
        if let Read::Took(count) = read {
            self.bytes = self.bytes.saturating_add(count as u64);
        }
        let seconds = self.watch.seconds(rt);
        if seconds < self.said.saturating_add(PATIENCE) {
            return;
        }
        self.said = seconds;
        let megabytes = self.bytes / 1000000;
        let _ = match read {
            Read::Took(_) => eprintln!(rt; "road: reading the graph, {megabytes} MB so far"),
            _ => eprintln!(rt; "road: {megabytes} MB are read, making the graph ready"),
        };
    }
}

/// A shelf that says how far the reading of a large file is.
#[derive(Drop)]
pub struct TellingShelf<'a, F: Shelf + Drop, R: Clock + Eprint> {
    rt: &'a R,
    shelf: F,
    meter: Meter,
}

impl<'a, F: Shelf + Drop, R: Clock + Eprint> TellingShelf<'a, F, R> {
    pub fn new(rt: &'a R, watch: Watch, shelf: F) -> Self {
        let meter = Meter {
            watch,
            bytes: 0,
            said: 0,
        };
        TellingShelf { rt, shelf, meter }
    }
}

impl<F: Shelf + Drop, R: Clock + Eprint> Source for TellingShelf<'_, F, R> {
    ghost left = { λ s. F.left s.shelf };

    ghost faults = { λ s. F.faults s.shelf };

    ghost picked = { λ s. F.picked s.shelf };

    fn read(&mut self, room: &mut [u8]) -> Read {
        let read = self.shelf.read(room);
        self.meter.note(self.rt, read);
        read
    }
}

impl<F: Shelf + Drop, R: Clock + Eprint> Shelf for TellingShelf<'_, F, R> {
    fn pick(&mut self, name: &str) -> Picked {
        self.shelf.pick(name)
    }
}

/// An input that says, before its first read, that the graph is ready.
#[derive(Drop)]
pub struct TellingSource<'a, S: Source + Drop, R: Clock + Eprint> {
    rt: &'a R,
    source: S,
    // until that is said
    watch: Option<Watch>,
}

impl<'a, S: Source + Drop, R: Clock + Eprint> TellingSource<'a, S, R> {
    pub fn new(rt: &'a R, watch: Watch, source: S) -> Self {
        TellingSource {
            rt,
            source,
            watch: Some(watch),
        }
    }
}

/// Says that the graph is ready, where that took long, the first time that it is called.
fn tell_ready<R: Clock + Eprint>(rt: &R, watch: &mut Option<Watch>) {
    let Some(watch) = watch.take() else {
        return;
    };
    let seconds = watch.seconds(rt);
    if seconds >= PATIENCE {
        let _ = eprintln!(rt; "road: ready for requests after {seconds} s");
    }
}

impl<S: Source + Drop, R: Clock + Eprint> Source for TellingSource<'_, S, R> {
    ghost left = { λ s. S.left s.source };

    ghost faults = { λ s. S.faults s.source };

    ghost picked = { λ s. S.picked s.source };

    fn read(&mut self, room: &mut [u8]) -> Read {
        tell_ready(self.rt, &mut self.watch);
        self.source.read(room)
    }
}
