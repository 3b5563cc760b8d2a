use crate::{GraphError, GraphFault, GraphKind, read_graph, write_graph};
use road_io::{MemSink, MemSource, Put};
use std::alloc::{AllocError, Global};
use std::test::Fail;

/// How many vertices and arcs the graph of a text has, read in pieces of this size.
fn sizes(
    alloc: Global,
    text: &[u8],
    piece: usize,
    failing: &[u64],
) -> Result<(u32, usize), GraphError> {
    let mut source = MemSource::new(text, piece, failing);
    let graph = read_graph(alloc, &mut source)?;
    Ok((graph.vertices(), graph.arcs().len()))
}

fn refused(line: u64, kind: GraphKind) -> Result<(u32, usize), GraphError> {
    Err(GraphError::Refused(GraphFault { line, kind }))
}

#[test]
fn answers_by_the_first_fault(rt: HostRuntime) {
    let rows: [(&[u8], u64, GraphKind); 29] = [
        (b"", 1, GraphKind::NoProblem),
        (b"c\n\n", 3, GraphKind::NoProblem),
        (b"p sp 2 2\na 1 2 5\n", 3, GraphKind::TooFewArcs),
        (b"p sp 2 2\na 1 2 5", 3, GraphKind::TooFewArcs),
        (b"p sp 2 1\na 1 2 5\na 2 1 5\n", 3, GraphKind::TooManyArcs),
        (b"p sp 2 1\na 1 2 5\na x\n", 3, GraphKind::TooManyArcs),
        (b"p sp 2 1\np sp 2 1\n", 2, GraphKind::SecondProblem),
        (b"p sp 2 1\np x\n", 2, GraphKind::SecondProblem),
        (b"a 1 2 5\n", 1, GraphKind::NoProblem),
        (b"a\n", 1, GraphKind::NoProblem),
        (b"p sp 2 1\na 1 3 5\n", 2, GraphKind::VertexRange),
        (b"p sp 2 1\na 0 1 5\n", 2, GraphKind::VertexRange),
        (b"p sp 2 1\na 1 3 0\n", 2, GraphKind::VertexRange),
        (b"p sp 2 1\na 1 2 0\n", 2, GraphKind::LengthZero),
        (b"p sp 2 1\na 1 2 4294967296\n", 2, GraphKind::LengthLarge),
        (b"p sp 2 1\na 1 3 x\n", 2, GraphKind::BadNumber),
        (
            b"p sp 2 1\na 1 2 00000000000000000005\n",
            2,
            GraphKind::BadNumber,
        ),
        (b"p sp 2 1\na 1 2\n", 2, GraphKind::BadLine),
        (b"p sp 2 1\na 1 2 3 4\n", 2, GraphKind::BadLine),
        (b"p sp 2 1\na 1 2 3\r4\n", 2, GraphKind::BadNumber),
        (b"p sp 2 1\naa 1 2 3\n", 2, GraphKind::BadLine),
        (b"x\n", 1, GraphKind::BadLine),
        (b"\xff\n", 1, GraphKind::BadLine),
        (b"p sp 2 1 1\n", 1, GraphKind::BadLine),
        (b"p max 2 1\n", 1, GraphKind::BadLine),
        (b"p sp 2 -1\n", 1, GraphKind::BadNumber),
        (b"p sp 33554433 x\n", 1, GraphKind::BadNumber),
        (b"p sp 33554433 67108865\n", 1, GraphKind::LimitVertices),
        (b"p sp 33554432 67108865\n", 1, GraphKind::LimitArcs),
    ];
    for (text, line, kind) in rows {
        for piece in [0, 1, 5] {
            let found = sizes(rt.alloc(), text, piece, &[]);
            assert_eq!(rt; found, refused(line, kind), "{text:?} by {piece}");
        }
    }
}

#[test]
fn accepts_what_the_form_allows(rt: HostRuntime) {
    let rows: [(&[u8], (u32, usize)); 8] = [
        (b"p sp 0 0\n", (0, 0)),
        (b"p sp 33554432 0", (33554432, 0)),
        (b"p sp 2 1\na 1 2 4294967295\n", (2, 1)),
        (b"p sp 2 1\r\na 1 2 5", (2, 1)),
        (
            b"c road\n \t c a 1 2\n\n p\tsp 002 1 \n\ta  2 1 0000000000000000005\t\r\nc",
            (2, 1),
        ),
        (b"p sp 1 2\na 1 1 1\nc between\na 1 1 2\n", (1, 2)),
        (b"p sp 1 1\na 1 1 1\r", (1, 1)),
        (b"c\rp sp 9 9\np sp 1 0\n", (1, 0)),
    ];
    for (text, wanted) in rows {
        for piece in [0, 1, 5] {
            assert_eq!(rt;
                sizes(rt.alloc(), text, piece, &[]),
                Ok(wanted),
                "{text:?} by {piece}"
            );
        }
    }
}

/// A text of a line of so many bytes of one kind between a problem line and an arc.
fn with_line(alloc: Global, byte: u8, len: usize) -> Result<Vec<u8>, AllocError> {
    let mut text = Vec::from_slice(alloc, b"p sp 1 1\n")?;
    for _ in 0..len {
        text.push(byte)?;
    }
    text.extend_from_slice(b"\na 1 1 1\n")?;
    Ok(text)
}

#[test]
fn limits_lines_that_are_no_comments(rt: HostRuntime) -> Result<(), Fail> {
    let rows = [
        (b' ', 256, Ok((1, 1))),
        (b' ', 257, refused(2, GraphKind::LineLong)),
        (b'x', 256, refused(2, GraphKind::BadLine)),
        (b'x', 300000, refused(2, GraphKind::LineLong)),
        (b'c', 300000, Ok((1, 1))),
    ];
    for (byte, len, wanted) in rows {
        let text = with_line(rt.alloc(), byte, len)?;
        assert_eq!(rt;
            sizes(rt.alloc(), text.as_slice(), 0, &[]),
            wanted,
            "{byte} times {len}"
        );
    }
    Ok(())
}

#[test]
fn tells_a_failed_read_from_a_fault_before_it(rt: HostRuntime) {
    // The read that is to fail, in reads of one byte.
    let rows = [
        (0, Err(GraphError::ReadFault)),
        (1, Err(GraphError::ReadFault)),
        (2, refused(1, GraphKind::BadLine)),
        (3, refused(1, GraphKind::BadLine)),
    ];
    for (fails, wanted) in rows {
        assert_eq!(rt;
            sizes(rt.alloc(), b"x\np sp 1 0\n", 1, &[fails]),
            wanted,
            "at {fails}"
        );
    }
    assert_eq!(rt;
        sizes(rt.alloc(), b"p sp 1 0\n", 0, &[1]),
        Err(GraphError::ReadFault)
    );
}

#[test]
fn writes_the_canonical_text(rt: HostRuntime) -> Result<(), Fail> {
    let text = b"c first\n p sp\t6 03\na 1 2 10\r\n a 2 6 0001\n\na 6  1 4294967295";
    let wanted = b"p sp 6 3\na 1 2 10\na 2 6 1\na 6 1 4294967295\n";
    let mut source = MemSource::new(text, 7, &[]);
    let graph = read_graph(rt.alloc(), &mut source)?;
    let mut sink = MemSink::new(rt.alloc(), &[]);
    assert!(rt; write_graph(&mut sink, &graph) == Put::Done);
    assert_eq!(rt; sink.bytes(), wanted.as_slice());
    let mut failing = MemSink::new(rt.alloc(), &[0]);
    assert!(rt; write_graph(&mut failing, &graph) == Put::Failed);
    Ok(())
}

#[test]
fn an_error_says_the_line_and_what_is_wrong(rt: HostRuntime) -> Result<(), Fail> {
    let fault = GraphFault {
        line: 3,
        kind: GraphKind::TooFewArcs,
    };
    assert_eq!(rt; fault.kind.word(), "too-few-arcs");
    let rows = [
        (
            GraphError::Refused(fault),
            "line 3: there are fewer arcs than the problem line says",
        ),
        (GraphError::ReadFault, "a read of the file failed"),
        (GraphError::NoMemory, "out of memory"),
    ];
    for (error, text) in rows {
        assert_eq!(rt; format!(in rt.alloc(); "{error}")?.as_str(), text);
    }
    Ok(())
}
