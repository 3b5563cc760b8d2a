//! Each form at each of its answers, and the adapters at real and at fake runtimes.
ghost use Rattle.std.specs.Prelude.{◌<◌, length};

use super::*;
use std::alloc::{AllocError, Allocator, Global};
use std::fmt::Display;
use std::io::{BufRead as _, ErrorKind, Lines};
use std::test::Fail;
use std::{fs, io};

/// What so many reads gave: the bytes of each with `|` after them, `.` for an end and `!` for a
/// failure.
fn reads<S: Source>(
    alloc: Global,
    source: &mut S,
    room: &mut [u8],
    count: u8,
) -> Result<Vec<u8>, AllocError>
    requires { 0 < length room.old }
{
    let mut seen = Vec::new(alloc);
    for _ in 0..count {
        match source.read(room) {
            Read::Took(len) => {
                seen.extend_from_slice(&room[..len])?;
                seen.push(b'|')?;
            }
            Read::End => seen.push(b'.')?,
            Read::Failed => seen.push(b'!')?,
        }
    }
    Ok(seen)
}

#[test]
fn a_source_gives_its_pieces_and_fails_as_planned(rt: HostRuntime) -> Result<(), Fail> {
    let rows: [(usize, &[u64], &[u8]); 5] = [
        (0, &[], b"abcd|ef|...."),
        (3, &[], b"abc|def|...."),
        (9, &[], b"abcd|ef|...."),
        (1, &[1, 4], b"a|!b|c|!d|"),
        (0, &[0, 2, 3, 9], b"!abcd|!!ef|."),
    ];
    for (piece, failing, want) in rows {
        let mut source = MemSource::new(b"abcdef", piece, failing);
        let seen = reads(rt.alloc(), &mut source, &mut [0; 4], 6)?;
        assert_eq!(rt; seen.as_slice(), want);
        assert_eq!(rt;
            source.faults(),
            want.iter().filter(|b| **b == b'!').count() as u64
        );
    }
    Ok(())
}

#[test]
fn a_sink_keeps_what_it_took(rt: HostRuntime) -> Result<(), Fail> {
    let mut sink = MemSink::new(rt.alloc(), &[1, 3]);
    let wants = [Put::Done, Put::Failed, Put::Done, Put::Failed, Put::Done];
    for (piece, want) in [b"ab", b"cd", b"ef", b"gh", b"ij"].iter().zip(&wants) {
        let mut lent = &mut sink;
        assert_eq!(rt; lent.write(piece.as_slice()), *want);
    }
    assert_eq!(rt; sink.bytes(), b"abefij".as_slice());
    assert_eq!(rt; sink.faults(), 2);
    Ok(())
}

#[test]
fn the_buffers_hand_on_what_they_keep(rt: HostRuntime) {
    let mut gathered = Gathered::new(rt.alloc());
    assert_eq!(rt; gathered.write(b"ab"), Put::Done);
    assert_eq!(rt; gathered.write(b"c"), Put::Done);
    assert_eq!(rt; gathered.bytes(), b"abc".as_slice());
    gathered.clear();
    assert_eq!(rt; gathered.bytes().len(), 0);
    let mut sink = MemSink::new(rt.alloc(), &[1]);
    let mut pending = Pending::new();
    pending.push(b"abc");
    assert_eq!(rt; pending.make_room(&mut sink, MOST_PENDING - 3), Put::Done);
    assert_eq!(rt; sink.bytes().len(), 0);
    assert_eq!(rt; pending.make_room(&mut sink, MOST_PENDING - 2), Put::Done);
    assert_eq!(rt; sink.bytes(), b"abc".as_slice());
    assert_eq!(rt; pending.send(&mut sink), Put::Failed);
}

/// Two files, and a second one of the first name, which nothing reaches.
const FILES: [NamedFile<'static>; 3] = [
    NamedFile {
        name: "first",
        bytes: b"one",
    },
    NamedFile {
        name: "second",
        bytes: b"two",
    },
    NamedFile {
        name: "first",
        bytes: b"three",
    },
];

#[test]
fn a_shelf_reads_the_file_that_was_picked(rt: HostRuntime) -> Result<(), Fail> {
    let alloc = rt.alloc();
    let mut shelf = MemShelf::new(&FILES, 2, &[4, 6]);
    assert_eq!(rt;
        reads(alloc, &mut shelf, &mut [0; 4], 1)?.as_slice(),
        b".".as_slice()
    );
    assert_eq!(rt; shelf.pick("first"), Picked::Ready);
    assert_eq!(rt;
        reads(alloc, &mut shelf, &mut [0; 4], 1)?.as_slice(),
        b"on|".as_slice()
    );
    assert_eq!(rt; shelf.pick("third"), Picked::Failed, "no such file");
    assert_eq!(rt;
        reads(alloc, &mut shelf, &mut [0; 4], 2)?.as_slice(),
        b"!e|".as_slice()
    );
    assert_eq!(rt; shelf.pick("second"), Picked::Failed, "planned");
    assert_eq!(rt; shelf.pick("second"), Picked::Ready);
    assert_eq!(rt;
        reads(alloc, &mut shelf, &mut [0; 4], 3)?.as_slice(),
        b"tw|o|.".as_slice()
    );
    assert_eq!(rt; shelf.faults(), 3);
    Ok(())
}

#[test]
fn the_sure_forms_never_fail(rt: HostRuntime) -> Result<(), Fail> {
    let alloc = rt.alloc();
    let mut source = SureSource::new(b"abcdef");
    assert_eq!(rt;
        reads(alloc, &mut source, &mut [0; 4], 3)?.as_slice(),
        b"abcd|ef|.".as_slice()
    );
    assert_eq!(rt; SureSink.write(b"piece"), Put::Done);
    let mut shelf = SureShelf::new(&FILES);
    for (name, want) in [("second", b"two|.".as_slice()), ("third", b"..".as_slice())] {
        assert_eq!(rt; shelf.pick(name), Picked::Ready);
        assert_eq!(rt; reads(alloc, &mut shelf, &mut [0; 4], 2)?.as_slice(), want);
    }
    Ok(())
}

#[test]
fn the_systems_files_are_a_shelf(rt: HostRuntime) -> Result<(), Fail> {
    let alloc = rt.alloc();
    let name = "road_io_shelf.txt";
    fs::write(&rt, name, "abcdef")?;
    let mut shelf = FileShelf::new(rt);
    assert_eq!(rt;
        reads(alloc, &mut shelf, &mut [0; 4], 1)?.as_slice(),
        b".".as_slice()
    );
    assert_eq!(rt; shelf.pick(name), Picked::Ready);
    assert_eq!(rt;
        reads(alloc, &mut shelf, &mut [0; 4], 1)?.as_slice(),
        b"abcd|".as_slice()
    );
    assert_eq!(rt; shelf.pick("road_io_missing.txt"), Picked::Failed);
    assert_eq!(rt;
        reads(alloc, &mut shelf, &mut [0; 4], 2)?.as_slice(),
        b"ef|.".as_slice()
    );
    assert_eq!(rt; shelf.pick("."), Picked::Ready, "a folder opens");
    assert_eq!(rt;
        reads(alloc, &mut shelf, &mut [0; 4], 1)?.as_slice(),
        b"!".as_slice()
    );
    fs::remove_file(&rt, name)?;
    Ok(())
}

/// A runtime whose input is a text and whose output is closed.
struct Typed;

impl Input for Typed {
    type Reader = &'static [u8];

    fn read_line<A: Allocator + Clone>(&self, _buf: &mut String<A>) -> io::Result<usize> {
        Err(io::Error::from(ErrorKind::Unsupported))
    }

    fn lines<A: Allocator>(&self, alloc: A) -> Lines<&'static [u8], A> {
        self.reader().lines(alloc)
    }

    fn reader(&self) -> &'static [u8] {
        b"typed"
    }
}

impl Print for Typed {
    fn print<D: Display + Drop>(&self, _value: D) -> io::Result<()> {
        Err(io::Error::from(ErrorKind::BrokenPipe))
    }

    fn println<D: Display + Drop>(&self, _value: D) -> io::Result<()> {
        Err(io::Error::from(ErrorKind::BrokenPipe))
    }

    fn write_all(&self, _bytes: &[u8]) -> io::Result<()> {
        Err(io::Error::from(ErrorKind::BrokenPipe))
    }
}

#[test]
fn the_standard_streams_are_a_source_and_a_sink(rt: HostRuntime) -> Result<(), Fail> {
    let mut source = StdinSource::new(&Typed);
    assert_eq!(rt;
        reads(rt.alloc(), &mut source, &mut [0; 4], 3)?.as_slice(),
        b"type|d|.".as_slice()
    );
    assert_eq!(rt; StdoutSink::new(&Typed).write(b"piece"), Put::Failed);
    assert_eq!(rt; StdoutSink::new(&rt).write(b"a piece\n"), Put::Done);
    Ok(())
}
