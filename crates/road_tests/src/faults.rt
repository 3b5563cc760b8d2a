//! Reads and writes that fail.

use crate::graphs::SMALL;
use crate::runs::{NEVER, Run, check, strings};
use road_io::{MemShelf, MemSink, MemSource, NamedFile};
use route_server::{Status, run};
use std::alloc::Global;
use std::process::Abort;
use std::test::Fail;
use std::thread::Threads;

const FIRST: &[u64] = &[0];

const SECOND: &[u64] = &[1];

const THIRD: &[u64] = &[2];

// A command, the calls of the files, of the input and of the output that fail, the status, and what was written.
const ANSWERED: &[(&str, &[u64], &[u64], &[u64], Status, &[u8])] = &[
    ("check b.gr", NEVER, NEVER, NEVER, Status::ReadFault, b""),
    ("check ", NEVER, NEVER, NEVER, Status::ReadFault, b""),
    ("check a.gr", THIRD, NEVER, NEVER, Status::ReadFault, b""),
    ("print a.gr", FIRST, NEVER, NEVER, Status::ReadFault, b""),
    ("check a.gr", NEVER, NEVER, FIRST, Status::WriteFault, b""),
    ("print a.gr", NEVER, NEVER, FIRST, Status::WriteFault, b""),
    ("make 0 2 1", NEVER, NEVER, FIRST, Status::WriteFault, b""),
    (
        "survey 0 2 1 1",
        NEVER,
        NEVER,
        FIRST,
        Status::WriteFault,
        b"",
    ),
    ("answer b.gr", NEVER, NEVER, NEVER, Status::ReadFault, b""),
    ("answer a.gr", NEVER, FIRST, NEVER, Status::ReadFault, b""),
    (
        "answer a.gr",
        NEVER,
        SECOND,
        NEVER,
        Status::ReadFault,
        b"ok 1\noptimum length 11 arcs 3\nend\nversion 1\n",
    ),
    ("answer a.gr", NEVER, NEVER, FIRST, Status::WriteFault, b""),
    (
        "answer a.gr",
        NEVER,
        NEVER,
        SECOND,
        Status::WriteFault,
        b"ok 1\noptimum length 11 arcs 3\nend\n",
    ),
];

#[test]
fn a_fault_ends_the_run_after_what_was_answered(rt: HostRuntime) -> Result<(), Fail> {
    for row in ANSWERED {
        let (words, shelf_fails, input_fails, output_fails, status, output) = *row;
        let row = Run {
            words,
            file: SMALL,
            input: b"optimum 1 3\nversion\n",
            shelf_fails,
            input_fails,
            output_fails,
            status,
            output,
        };
        check(&rt, rt.alloc(), &row, 0)?;
    }
    Ok(())
}

#[test]
fn a_read_that_fails_in_the_middle_of_a_line_loses_the_line(rt: HostRuntime) -> Result<(), Fail> {
    let row = Run {
        words: "answer a.gr",
        file: SMALL,
        input: b"version\nversion\nvers",
        shelf_fails: NEVER,
        input_fails: &[10],
        output_fails: NEVER,
        status: Status::ReadFault,
        output: b"version 1\n",
    };
    check(&rt, rt.alloc(), &row, 1)
}

// The same, where nothing was written.
const FIRST_CALLS: &[(&str, &[u64], &[u64], &[u64], Status)] = &[
    ("check a.gr", FIRST, NEVER, NEVER, Status::ReadFault),
    ("check a.gr", SECOND, NEVER, NEVER, Status::ReadFault),
    ("print a.gr", SECOND, NEVER, NEVER, Status::ReadFault),
    ("print a.gr", THIRD, NEVER, NEVER, Status::ReadFault),
    ("answer a.gr", FIRST, NEVER, NEVER, Status::ReadFault),
    ("answer a.gr", SECOND, NEVER, NEVER, Status::ReadFault),
    ("answer a.gr", THIRD, NEVER, NEVER, Status::ReadFault),
    ("answer a.gr", NEVER, FIRST, NEVER, Status::ReadFault),
    ("answer a.gr", NEVER, NEVER, FIRST, Status::WriteFault),
    // No call is made that could fail.
    ("", FIRST, FIRST, FIRST, Status::Usage),
    ("answer", FIRST, FIRST, FIRST, Status::Usage),
    ("chek a.gr", FIRST, FIRST, FIRST, Status::Usage),
];

#[test]
fn the_first_call_that_fails_ends_the_run(rt: HostRuntime) -> Result<(), Fail> {
    for row in FIRST_CALLS {
        let (words, shelf_fails, input_fails, output_fails, status) = *row;
        let row = Run {
            words,
            file: SMALL,
            input: b"route 1 6\n",
            shelf_fails,
            input_fails,
            output_fails,
            status,
            output: b"",
        };
        check(&rt, rt.alloc(), &row, 0)?;
    }
    Ok(())
}

/// What the calls that fail belong to.
#[derive(Clone, Copy, Debug, PartialEq, Eq)]
enum Place {
    File,
    Input,
    Output,
}

/// The calls that fail at one place, where those that do belong to another, or to the same.
fn failing_at(place: Place, chosen: Place, failing: &[u64]) -> &[u64] {
    if place == chosen { failing } else { NEVER }
}

/// How a command over a small graph ends, and what it writes, where these calls fail. Reads give 16 bytes.
fn outcome<R: Threads + Sync>(
    rt: &R,
    alloc: Global,
    words: &[String],
    place: Place,
    failing: &[u64],
) -> Result<(Status, Vec<u8>), Fail> {
    let files = [NamedFile {
        name: "a.gr",
        bytes: SMALL,
    }];
    let mut shelf = MemShelf::new(&files, 16, failing_at(Place::File, place, failing));
    let input = b"optimum 1 3\nversion\nroute 1 6\nlength 1 50\npublish\nwhy 1 6 4\n";
    let mut input = MemSource::new(input, 16, failing_at(Place::Input, place, failing));
    let mut output = MemSink::new(alloc, failing_at(Place::Output, place, failing));
    let status = run(rt, alloc, words, &mut shelf, &mut input, &mut output);
    Ok((status, Vec::from_slice(alloc, output.bytes())?))
}

/// The numbers of the first calls.
const CALLS: [u64; 16] = [0, 1, 2, 3, 4, 5, 6, 7, 8, 9, 10, 11, 12, 13, 14, 15];

// A command; what fails; how many such calls are made, or 4 where there are more; the status where one of these fails.
const COMMANDS: &[(&str, Place, usize, Status)] = &[
    ("check a.gr", Place::File, 4, Status::ReadFault),
    ("check a.gr", Place::Input, 0, Status::ReadFault),
    ("check a.gr", Place::Output, 1, Status::WriteFault),
    ("print a.gr", Place::File, 4, Status::ReadFault),
    ("print a.gr", Place::Input, 0, Status::ReadFault),
    ("print a.gr", Place::Output, 1, Status::WriteFault),
    ("make 7 6 6", Place::File, 0, Status::ReadFault),
    ("make 7 6 6", Place::Input, 0, Status::ReadFault),
    ("make 7 6 6", Place::Output, 1, Status::WriteFault),
    ("survey 7 6 6 5", Place::File, 0, Status::ReadFault),
    ("survey 7 6 6 5", Place::Input, 0, Status::ReadFault),
    ("survey 7 6 6 5", Place::Output, 1, Status::WriteFault),
    ("answer a.gr", Place::File, 4, Status::ReadFault),
    ("answer a.gr", Place::Input, 4, Status::ReadFault),
    ("answer a.gr", Place::Output, 4, Status::WriteFault),
];

/// A command whose call `k` fails writes a prefix of what it else writes, and ends with the fault; all of it where so many
/// calls aren't made.
fn ends_at<R: Abort + Threads + Sync>(
    rt: &R,
    alloc: Global,
    row: &(&str, Place, usize, Status),
    k: usize,
    failing: &[u64],
) -> Result<(), Fail> {
    let (words, place, calls, fault) = *row;
    let said = strings(alloc, words)?;
    let (done, whole) = outcome(rt, alloc, &said, place, NEVER)?;
    let (status, written) = outcome(rt, alloc, &said, place, failing)?;
    assert_eq!(rt; done, Status::Done, "{words}");
    assert!(rt; whole.starts_with(&written), "{words}, {place:?}, {k}");
    let (wanted, is_whole) = if k < calls {
        (fault, false)
    } else {
        (done, true)
    };
    assert_eq!(rt; status, wanted, "{words}, {place:?}, {k}");
    assert_eq!(rt;
        written.len() == whole.len(),
        is_whole,
        "{words}, {place:?}, {k}"
    );
    Ok(())
}

#[test]
fn a_call_that_fails_once_or_from_then_on_ends_the_run(rt: HostRuntime) -> Result<(), Fail> {
    for row in COMMANDS {
        for k in 0..4 {
            ends_at(&rt, rt.alloc(), row, k, &CALLS[k..k + 1])?;
            ends_at(&rt, rt.alloc(), row, k, &CALLS[k..])?;
        }
    }
    Ok(())
}
