//! Certificates, right ones and forged ones, by the command that rechecks them, and those that are written.

use crate::graphs::{DETOUR, FORK, PARALLEL, SHORT, SMALL, STUB, TIES};
use crate::runs::{NEVER, Run, check, strings};
use certificate_text::{CertFault, CertKind};
use dimacs_reader::{GraphFault, GraphKind};
use road_io::{MemShelf, MemSink, MemSource, NamedFile};
use route_server::{Status, run};
use std::alloc::{AllocError, Global};
use std::process::Abort;
use std::test::Fail;
use std::thread::Threads;

// From 1 to 6 over the small graph: the optimum and one alternative.
const RIGHT: &str = "cert 1
graph 6 6
query 1 6 4/5 1/4 1/4
from 1 radius 25
row 1 0 0
row 2 10 1
row 3 11 3
row 4 17 4
row 6 20 2
end
to 6 radius 25
row 1 20 1
row 2 10 2
row 3 11 4
row 4 5 5
row 6 0 0
end
optimum 20 1 2
route 3 22 0 6 38 3 4 5
via 1 optimum
via 2 optimum
via 3 listed 3
via 4 listed 3
via 6 optimum
done
";

// An alternative that leaves the optimum at place 1, whose vertex has a block of its own.
const FORKED: &str = "cert 1
graph 6 6
query 1 6 4/5 1/4 1/4
from 1 radius 25
row 1 0 0
row 2 10 2
row 3 5 1
row 4 11 4
row 5 16 5
row 6 20 3
end
to 6 radius 25
row 1 20 1
row 2 10 3
row 3 15 2
row 4 10 5
row 5 5 6
row 6 0 0
end
from 3 radius 16
row 2 5 2
row 3 0 0
row 4 6 4
row 5 11 5
row 6 15 3
end
optimum 20 1 2 3
route 4 21 5 5 42 1 4 5 6
via 1 optimum
via 2 optimum
via 3 optimum
via 4 listed 4
via 5 listed 4
via 6 optimum
done
";

const NO_PATH: &str = "cert 1
graph 6 6
query 6 1 4/5 1/4 1/4
from 6 all
row 6 0 0
end
none
done
";

// Radii above what is needed, and a detour without an arc: the path through vertex 4 goes out and back.
const STRANGER: &str = "cert 1
graph 4 4
query 1 3 1/1 0/1 1/1
from 1 radius 9
row 1 0 0
row 2 1 1
row 3 2 2
row 4 2 3
end
to 3 radius 7
row 1 2 1
row 2 1 2
row 3 0 0
row 4 2 4
end
optimum 2 1 2
via 1 optimum
via 2 optimum
via 3 optimum
via 4 stretch 1 3
done
";

// The text with another line in the place of one of its lines, counted from 1, or with none.
fn forged(
    alloc: Global,
    text: &str,
    line: usize,
    other: Option<&str>,
) -> Result<Vec<u8>, AllocError> {
    let mut bytes = Vec::new(alloc);
    let place = line.wrapping_sub(1);
    for (index, kept) in text.lines().enumerate() {
        let written = if index == place { other } else { Some(kept) };
        if let Some(written) = written {
            for byte in written.as_bytes() {
                bytes.push(*byte)?;
            }
            bytes.push(b'\n')?;
        }
    }
    Ok(bytes)
}

// Runs a command over a graph file and a certificate.
fn rechecks<R: Abort + Threads + Sync>(
    rt: &R,
    alloc: Global,
    words: &str,
    graph: &[u8],
    certificate: &[u8],
    fails: &[u64],
    status: Status,
    output: &str,
) -> Result<(), Fail> {
    let given = strings(alloc, words)?;
    let files = [
        NamedFile {
            name: "a.gr",
            bytes: graph,
        },
        NamedFile {
            name: "a.cert",
            bytes: certificate,
        },
    ];
    let mut shelf = MemShelf::new(&files, 0, fails);
    let mut input = MemSource::new(b"", 0, NEVER);
    let mut sink = MemSink::new(alloc, NEVER);
    let ended = run(rt, alloc, &given, &mut shelf, &mut input, &mut sink);
    let text = str::from_utf8(certificate).unwrap_or("no text");
    assert_eq!(rt; ended, status, "{words} of {text}");
    assert_eq!(rt; sink.bytes(), output.as_bytes(), "{words} of {text}");
    Ok(())
}

const ACCEPTED: &[(&[u8], &str, &str)] = &[
    (SMALL, RIGHT, "yes 2\n"),
    (FORK, FORKED, "yes 2\n"),
    (SMALL, NO_PATH, "yes 0\n"),
    (STUB, STRANGER, "yes 1\n"),
];

#[test]
fn right_certificates_are_accepted(rt: HostRuntime) -> Result<(), Fail> {
    for row in ACCEPTED {
        let (graph, text, output) = *row;
        let (words, bytes) = ("recheck a.gr a.cert", text.as_bytes());
        rechecks(
            &rt,
            rt.alloc(),
            words,
            graph,
            bytes,
            NEVER,
            Status::Done,
            output,
        )?;
    }
    Ok(())
}

// A line of the first certificate, what stands there instead, the line and the kind of the fault, and what is said.
const FORGED: &[(usize, Option<&str>, u64, CertKind, &str)] = &[
    (2, Some("graph 6 7"), 2, CertKind::Graph, "no 2 graph\n"),
    (
        3,
        Some("query 7 6 4/5 1/4 1/4"),
        3,
        CertKind::Query,
        "no 3 query\n",
    ),
    (
        4,
        Some("from 1 radius 24"),
        18,
        CertKind::Bound,
        "no 18 bound\n",
    ),
    (6, Some("row 2 010 1"), 6, CertKind::Syntax, "no 6 syntax\n"),
    (7, Some("row 3 11 6"), 7, CertKind::Least, "no 7 least\n"),
    (8, Some("row 4 18 4"), 8, CertKind::Tight, "no 8 tight\n"),
    (8, None, 9, CertKind::Closed, "no 9 closed\n"),
    (12, Some("row 1 20 3"), 12, CertKind::Tight, "no 12 tight\n"),
    (14, Some("row 3 11 6"), 14, CertKind::Arc, "no 14 arc\n"),
    (
        18,
        Some("optimum 20 3 4 5"),
        18,
        CertKind::Optimum,
        "no 18 optimum\n",
    ),
    (
        19,
        Some("route 3 22 0 6 37 3 4 5"),
        19,
        CertKind::Numbers,
        "no 19 numbers\n",
    ),
    (
        19,
        Some("route 4 22 0 6 38 3 4 5"),
        19,
        CertKind::Name,
        "no 19 name\n",
    ),
    (19, None, 21, CertKind::Reason, "no 21 reason\n"),
    (21, None, 21, CertKind::Next, "no 21 next\n"),
    (
        23,
        Some("via 4 shared 0"),
        23,
        CertKind::Reason,
        "no 23 reason\n",
    ),
    (
        23,
        Some("via 4 local 0 2 1 6 4"),
        23,
        CertKind::Reason,
        "no 23 reason\n",
    ),
    (24, None, 24, CertKind::Next, "no 24 next\n"),
    (25, Some("done\nx"), 26, CertKind::Syntax, "no 26 syntax\n"),
    (25, None, 25, CertKind::Truncated, "no 25 truncated\n"),
];

#[test]
fn the_first_fault_of_a_forged_certificate_is_named(rt: HostRuntime) -> Result<(), Fail> {
    for row in FORGED {
        let (line, other, fault_line, kind, output) = *row;
        let bytes = forged(rt.alloc(), RIGHT, line, other)?;
        let fault = CertFault {
            line: fault_line,
            kind,
        };
        let status = Status::CheckedNo(fault);
        let words = "recheck a.gr a.cert";
        rechecks(&rt, rt.alloc(), words, SMALL, &bytes, NEVER, status, output)?;
    }
    Ok(())
}

const FIRST: &[u64] = &[0];

const FOURTH: &[u64] = &[3];

// Words, a graph, the calls of the files that fail, and how the run ends, with nothing written.
const UNANSWERED: &[(&str, &[u8], &[u64], Status)] = &[
    ("recheck a.gr", SMALL, NEVER, Status::Usage),
    ("recheck a.gr a.cert b", SMALL, NEVER, Status::Usage),
    ("recheck -a a.cert", SMALL, NEVER, Status::Usage),
    ("recheck a.gr -c", SMALL, NEVER, Status::Usage),
    ("recheck b.gr a.cert", SMALL, NEVER, Status::ReadFault),
    ("recheck a.gr b.cert", SMALL, NEVER, Status::ReadFault),
    ("recheck a.gr a.cert", SMALL, FIRST, Status::ReadFault),
    ("recheck a.gr a.cert", SMALL, FOURTH, Status::ReadFault),
    (
        "recheck a.gr b.cert",
        SHORT,
        NEVER,
        Status::GraphRefused(GraphFault {
            line: 9,
            kind: GraphKind::TooFewArcs,
        }),
    ),
];

#[test]
fn a_run_without_an_answer_writes_nothing(rt: HostRuntime) -> Result<(), Fail> {
    for row in UNANSWERED {
        let (words, graph, fails, status) = *row;
        rechecks(
            &rt,
            rt.alloc(),
            words,
            graph,
            RIGHT.as_bytes(),
            fails,
            status,
            "",
        )?;
    }
    Ok(())
}

// Runs a command that writes a certificate of a graph.
fn certifies<R: Abort + Threads + Sync>(
    rt: &R,
    alloc: Global,
    words: &str,
    graph: &[u8],
    faults: (&[u64], &[u64]),
    status: Status,
    output: &str,
) -> Result<(), Fail> {
    let row = Run {
        words,
        file: graph,
        input: b"",
        shelf_fails: faults.0,
        input_fails: NEVER,
        output_fails: faults.1,
        status,
        output: output.as_bytes(),
    };
    check(rt, alloc, &row, 0)
}

// Numbers may have leading zeros.
const WRITTEN: &[(&str, &[u8], &str)] = &[
    ("certify a.gr 1 6", SMALL, RIGHT),
    ("certify a.gr 01 000006", SMALL, RIGHT),
    ("certify a.gr 1 6", FORK, FORKED),
    ("certify a.gr 6 1", SMALL, NO_PATH),
];

#[test]
fn certificates_are_written_byte_for_byte(rt: HostRuntime) -> Result<(), Fail> {
    for row in WRITTEN {
        let (words, graph, text) = *row;
        let (alloc, done) = (rt.alloc(), Status::Done);
        certifies(&rt, alloc, words, graph, (NEVER, NEVER), done, text)?;
    }
    Ok(())
}

const SECOND: &[u64] = &[1];

// The second read is the one that tells the end of the file, and comes after the call that picks it.
const THIRD: &[u64] = &[2];

// Words, a graph, the calls of the files and of the output that fail, and how the run ends, with nothing written.
const UNWRITTEN: &[(&str, &[u8], &[u64], &[u64], Status)] = &[
    (
        "certify a.gr 7 1",
        SMALL,
        NEVER,
        NEVER,
        Status::QueryRefused,
    ),
    (
        "certify a.gr 1 7",
        SMALL,
        NEVER,
        FIRST,
        Status::QueryRefused,
    ),
    (
        "certify a.gr 0 1",
        SMALL,
        NEVER,
        NEVER,
        Status::QueryRefused,
    ),
    (
        "certify a.gr 1 0",
        SMALL,
        NEVER,
        NEVER,
        Status::QueryRefused,
    ),
    (
        "certify a.gr 4294967297 4294967297",
        SMALL,
        NEVER,
        NEVER,
        Status::QueryRefused,
    ),
    (
        "certify a.gr 1 9999999999999999999",
        SMALL,
        NEVER,
        NEVER,
        Status::QueryRefused,
    ),
    (
        "certify a.gr 1 1",
        b"p sp 0 0\n",
        NEVER,
        NEVER,
        Status::QueryRefused,
    ),
    (
        "certify a.gr 1 10000000000000000000",
        SMALL,
        NEVER,
        NEVER,
        Status::Usage,
    ),
    ("certify a.gr 1 -", SMALL, NEVER, NEVER, Status::Usage),
    ("certify a.gr -1 6", SMALL, NEVER, NEVER, Status::Usage),
    ("certify a.gr + 6", SMALL, NEVER, NEVER, Status::Usage),
    ("certify - 1 6", SMALL, NEVER, NEVER, Status::Usage),
    ("certify a.gr", SMALL, NEVER, NEVER, Status::Usage),
    ("certify a.gr 1", SMALL, NEVER, NEVER, Status::Usage),
    ("certify a.gr 1 6 2", SMALL, NEVER, NEVER, Status::Usage),
    ("certify b.gr 1 6", SMALL, NEVER, NEVER, Status::ReadFault),
    ("certify a.gr 1 6", SMALL, SECOND, NEVER, Status::ReadFault),
    ("certify a.gr 7 1", SMALL, THIRD, NEVER, Status::ReadFault),
    ("certify a.gr 1 6", SMALL, NEVER, FIRST, Status::WriteFault),
    (
        "certify a.gr 7 1",
        SHORT,
        NEVER,
        NEVER,
        Status::GraphRefused(GraphFault {
            line: 9,
            kind: GraphKind::TooFewArcs,
        }),
    ),
];

#[test]
fn a_run_without_a_certificate_writes_nothing(rt: HostRuntime) -> Result<(), Fail> {
    for row in UNWRITTEN {
        let (words, graph, reads, writes, status) = *row;
        certifies(&rt, rt.alloc(), words, graph, (reads, writes), status, "")?;
    }
    Ok(())
}

// What is written between two vertices.
fn written<R: Abort + Threads + Sync>(
    rt: &R,
    alloc: Global,
    graph: &[u8],
    ends: (u32, u32),
) -> Result<Vec<u8>, Fail> {
    let words = format!(in alloc; "certify a.gr {} {}", ends.0, ends.1)?;
    let given = strings(alloc, &words)?;
    let files = [NamedFile {
        name: "a.gr",
        bytes: graph,
    }];
    let mut shelf = MemShelf::new(&files, 0, NEVER);
    let mut input = MemSource::new(b"", 0, NEVER);
    let mut sink = MemSink::new(alloc, NEVER);
    let ended = run(rt, alloc, &given, &mut shelf, &mut input, &mut sink);
    assert_eq!(rt; ended, Status::Done, "{words}");
    let mut bytes = Vec::new(alloc);
    bytes.extend_from_slice(sink.bytes())?;
    Ok(bytes)
}

// Graphs, how many vertices they have, and for each pair of them what is said of its certificate.
const EVERY_PAIR: &[(&[u8], u32, &str)] = &[(PARALLEL, 2, "yes 1\nyes 1\nyes 0\nyes 1\n")];
