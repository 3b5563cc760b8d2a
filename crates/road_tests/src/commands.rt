//! The commands over graph files and grids, and the words of the command line.

use crate::graphs::{SHORT, SMALL};
use crate::runs::{NEVER, Run, check};
use dimacs_reader::{GraphFault, GraphKind};
use route_server::Status;
use std::alloc::Global;
use std::process::Abort;
use std::test::Fail;
use std::thread::Threads;

fn prints<R: Abort + Threads + Sync>(
    rt: &R,
    alloc: Global,
    words: &str,
    file: &[u8],
    status: Status,
    output: &[u8],
) -> Result<(), Fail> {
    let row = Run {
        words,
        file,
        input: b"",
        shelf_fails: NEVER,
        input_fails: NEVER,
        output_fails: NEVER,
        status,
        output,
    };
    check(rt, alloc, &row, 0)
}

// A file, and what is said of it.
const GOOD_FILES: &[(&[u8], &[u8])] = &[
    (SMALL, b"graph vertices 6 arcs 6\n"),
    (
        b"p sp 2 1\na 1 2 4294967295\n",
        b"graph vertices 2 arcs 1\n",
    ),
    (b"p sp 2 1\r\na 1 2 5", b"graph vertices 2 arcs 1\n"),
    (b"p sp 0 0\n", b"graph vertices 0 arcs 0\n"),
    (
        b"c\n p  sp 2\t1 \n\nc c\na 01 2 5\n",
        b"graph vertices 2 arcs 1\n",
    ),
];

#[test]
fn files_are_checked(rt: HostRuntime) -> Result<(), Fail> {
    for row in GOOD_FILES {
        prints(&rt, rt.alloc(), "check a.gr", row.0, Status::Done, row.1)?;
    }
    Ok(())
}

// A file, and the line and the kind of its first fault.
const BAD_FILES: &[(&[u8], u64, GraphKind)] = &[
    (b"", 1, GraphKind::NoProblem),
    (SHORT, 9, GraphKind::TooFewArcs),
    (b"p sp 2 1\na 1 2 0\n", 2, GraphKind::LengthZero),
    (b"p sp 2 1\na 1 2 4294967296\n", 2, GraphKind::LengthLarge),
    (b"p sp 2 2\na 1 2 5\n", 3, GraphKind::TooFewArcs),
    (b"p sp 2 1\na 1 2 5\na 2 1 5\n", 3, GraphKind::TooManyArcs),
    (b"p sp 2 1\np sp 2 1\n", 2, GraphKind::SecondProblem),
    (b"a 1 2 5\n", 1, GraphKind::NoProblem),
    (b"p sp 2 1\na 1 3 5\n", 2, GraphKind::VertexRange),
    (b"x\n", 1, GraphKind::BadLine),
    (b"p sp 2 -1\n", 1, GraphKind::BadNumber),
    (b"p sp 33554433 0\n", 1, GraphKind::LimitVertices),
];

#[test]
fn the_first_fault_of_a_file_is_named(rt: HostRuntime) -> Result<(), Fail> {
    for row in BAD_FILES {
        let (file, line, kind) = *row;
        let status = Status::GraphRefused(GraphFault { line, kind });
        prints(&rt, rt.alloc(), "check a.gr", file, status, b"")?;
        prints(&rt, rt.alloc(), "print a.gr", file, status, b"")?;
        prints(&rt, rt.alloc(), "answer a.gr", file, status, b"")?;
    }
    Ok(())
}

// A command, and what it prints.
const PRINTED: &[(&str, &[u8])] = &[
    (
        "print a.gr",
        b"p sp 6 6\na 1 2 10\na 2 6 10\na 1 3 11\na 3 4 6\na 4 6 5\na 2 3 1\n",
    ),
    ("make 0 2 1", b"p sp 2 2\na 1 2 536\na 2 1 701\n"),
    ("make 0 1 2", b"p sp 2 2\na 1 2 536\na 2 1 701\n"),
    ("make 00 01 1", b"p sp 1 0\n"),
    (
        "survey 0 2 1 1",
        b"graph vertices 2 arcs 2\nqueries 1 none 0\nroutes 1 length 701\nend\n",
    ),
    (
        "survey 7 6 6 5",
        b"graph vertices 36 arcs 120\nqueries 5 none 0\nroutes 6 length 9217\nend\n",
    ),
    (
        "survey 7 60 60 20",
        b"graph vertices 3600 arcs 14160\nqueries 20 none 0\nroutes 93 length 1371761\nend\n",
    ),
];

#[test]
fn graphs_are_printed_and_grids_made_and_surveyed(rt: HostRuntime) -> Result<(), Fail> {
    for row in PRINTED {
        prints(&rt, rt.alloc(), row.0, SMALL, Status::Done, row.1)?;
    }
    Ok(())
}

const NO_COMMANDS: &[&str] = &[
    "",
    "answer",
    "answer -x",
    "answer -",
    "answer a.gr x",
    "check",
    "check -a",
    "print",
    "print a.gr a.gr",
    "Check a.gr",
    "serve a.gr",
    "make 0 0 5",
    "make 0 5 0",
    "make 0 4097 5",
    "make 0 5 4097",
    "make 0 5",
    "make x 5 5",
    "make 10000000000000000000 1 1",
    "make 1 1 1 1",
    "survey 0 2 1",
    "survey 0 2 1 0",
    "survey 0 2 1 10001",
];

#[test]
fn other_words_are_no_command(rt: HostRuntime) -> Result<(), Fail> {
    for words in NO_COMMANDS {
        prints(&rt, rt.alloc(), words, SMALL, Status::Usage, b"")?;
    }
    Ok(())
}

const FAULT: GraphFault = GraphFault {
    line: 9,
    kind: GraphKind::TooFewArcs,
};

// A status, its text and its number.
const TEXTS: &[(Status, &str, u8)] = &[
    (Status::Usage, "usage", 2),
    (
        Status::GraphRefused(FAULT),
        "graph refused at line 9: too-few-arcs",
        3,
    ),
    (Status::ReadFault, "read fault", 4),
    (Status::WriteFault, "write fault", 5),
    (Status::NoMemory, "out of memory", 6),
    (Status::InputLong, "input too long", 7),
];

#[test]
fn texts_are_those_of_the_manual(rt: HostRuntime) -> Result<(), Fail> {
    for row in TEXTS {
        let (status, text, number) = *row;
        assert_eq!(rt; status.to_string(rt.alloc())?.as_str(), text);
        assert_eq!(rt; status.number(), number, "{text}");
    }
    Ok(())
}
