//! Input and output, as traits: where bytes come from, where they go, and files by
//! name.
//!
//! Each object keeps a count of its faults, which rises in a call that answers `Failed` and in no
//! other call. What an object holds is told to contracts where it lies in memory, and isn't told
//! where it is a file, a socket or a terminal.
#![tactic(auto)]

mod adapters;
mod buffers;
mod calls;
mod memory;
mod reading;
mod shelves;
mod sure;
mod texts;
mod writing;

pub use adapters::{FileShelf, StdinSource, StdoutSink};
pub use buffers::{Gathered, MOST_PENDING, Pending};
pub use memory::{MemShelf, MemSink, MemSource};
pub use reading::{Read, Source};
pub use shelves::{Picked, Shelf};
pub use sure::{SureShelf, SureSink, SureSource};
pub use texts::NamedFile;
pub use writing::{Put, Sink};

#[cfg(test)]
mod tests;
