//! Whole runs.

use road_io::{MemShelf, MemSink, MemSource, NamedFile};
use route_server::{Status, run};
use std::alloc::{AllocError, Global};
use std::process::Abort;
use std::test::Fail;
use std::thread::Threads;

/// A command over one file, and what it is to do.
#[derive(Drop)]
pub struct Run<'a> {
    /// The words of the command line, with a space between two.
    pub words: &'a str,
    pub file: &'a [u8],
    pub input: &'a [u8],
    /// The calls that fail, counted from 0.
    pub shelf_fails: &'a [u64],
    pub input_fails: &'a [u64],
    pub output_fails: &'a [u64],
    pub status: Status,
    pub output: &'a [u8],
}

/// No call fails.
pub const NEVER: &[u64] = &[];

/// The words, between spaces.
pub fn strings(alloc: Global, words: &str) -> Result<Vec<String>, AllocError> {
    let mut strings = Vec::new(alloc);
    if words.is_empty() {
        return Ok(strings);
    }
    for word in words.split(' ') {
        strings.push(String::from_str(alloc, word)?)?;
    }
    Ok(strings)
}

/// The bytes, as a message shows them.
fn text_of(bytes: &[u8]) -> &str {
    str::from_utf8(bytes).unwrap_or("no text")
}

/// Runs a command, whose reads give at most `piece` bytes, or as many as fit where it is 0.
pub fn check<R: Abort + Threads + Sync>(
    rt: &R,
    alloc: Global,
    row: &Run,
    piece: usize,
) -> Result<(), Fail> {
    let words = strings(alloc, row.words)?;
    let files = [NamedFile {
        name: "a.gr",
        bytes: row.file,
    }];
    let mut shelf = MemShelf::new(&files, piece, row.shelf_fails);
    let mut input = MemSource::new(row.input, piece, row.input_fails);
    let mut output = MemSink::new(alloc, row.output_fails);
    let status = run(rt, alloc, &words, &mut shelf, &mut input, &mut output);
    let (file, input) = (text_of(row.file), text_of(row.input));
    assert_eq!(rt;
        status,
        row.status,
        "{} of {file:?} on {input:?}",
        row.words
    );
    assert_eq!(rt;
        output.bytes(),
        row.output,
        "{} of {file:?} on {input:?}",
        row.words
    );
    Ok(())
}

/// Runs `answer`, with the bytes coming in one piece, one by one, and three by three.
pub fn answers<R: Abort + Threads + Sync>(
    rt: &R,
    alloc: Global,
    file: &[u8],
    input: &[u8],
    output: &[u8],
) -> Result<(), Fail> {
    let row = Run {
        words: "answer a.gr",
        file,
        input,
        shelf_fails: NEVER,
        input_fails: NEVER,
        output_fails: NEVER,
        status: Status::Done,
        output,
    };
    check(rt, alloc, &row, 0)?;
    check(rt, alloc, &row, 1)?;
    check(rt, alloc, &row, 3)
}
