ghost use Rattle.std.specs.Prelude.{◌≡◌, ◌≢◌, ◌<◌, ◌≤◌, [], Some, None, length};
ghost use Rattle.road_io.specs.Told.{text_told};
ghost use Rattle.road_io.specs.Count.{HasRisen};
ghost use Rattle.road_io.specs.Source.{Reads};
ghost use Rattle.road_io.specs.Shelf.{Picks};
ghost use Rattle.road_io.specs.Memory.{named_text};
ghost use Rattle.road_io.specs.SureForms.{sure_left, sure_told};

use crate::reading::{Read, Source};
use crate::shelves::{Picked, Shelf};
use crate::texts::{NamedFile, Rest, find_file};
use crate::writing::{Put, Sink};

/// A text in memory as a source that never fails.
#[derive(Drop)]
pub struct SureSource<'a> {
    rest: Rest<'a>,
}

impl<'a> SureSource<'a> {
    /// A source that gives these bytes, as many at a time as fit.
    pub fn new(bytes: &'a [u8]) -> Self
        ensures { sure_left result ≡ bytes.now }
    {
        SureSource {
            rest: Rest::new(bytes, 0),
        }
    }
}

impl Source for SureSource<'_> {
    ghost left = { λ s. Some (text_told (sure_left s)) };

    ghost faults = { λ _. 0 };

    ghost picked = { λ _. None };

    fn read(&mut self, room: &mut [u8]) -> Read {
        self.rest.take(room)
    }
}

/// A sink that takes everything, keeps nothing and never fails. It takes no memory.
#[derive(Drop)]
pub struct SureSink;

impl Sink for SureSink {
    ghost written = { λ _. None };

    ghost faults = { λ _. 0 };

    fn write(&mut self, _piece: &[u8]) -> Put {
        Put::Done
    }
}

/// Files in memory that never fail. A name that no file has is that of an empty file.
#[derive(Drop)]
pub struct SureShelf<'a> {
    files: &'a [NamedFile<'a>],
    rest: Rest<'a>,
}

impl<'a> SureShelf<'a> {
    /// A shelf with these files, of which none is current.
    pub fn new(files: &'a [NamedFile<'a>]) -> Self
        ensures files { (sure_told result).files ≡ named_text files.now }
        ensures left { (sure_told result).bytes ≡ [] }
    {
        SureShelf {
            files,
            rest: Rest::new(&[], 0),
        }
    }
}

impl Source for SureShelf<'_> {
    ghost left = { λ s. Some (sure_told s) };

    ghost faults = { λ _. 0 };

    ghost picked = { λ _. None };

    fn read(&mut self, room: &mut [u8]) -> Read {
        self.rest.take(room)
    }
}

impl Shelf for SureShelf<'_> {
    fn pick(&mut self, name: &str) -> Picked {
        match find_file(self.files, name) {
            Some(bytes) => self.rest.begin(bytes),
            None => self.rest.begin(&[]),
        }
        Picked::Ready
    }
}
