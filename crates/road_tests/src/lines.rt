//! Request lines and their replies.

use crate::graphs::{DETOUR, FORK, PARALLEL, SMALL, STUB, TIES};
use crate::runs::answers;
use std::test::Fail;

/// The replies that several rows share.
const BEST: &[u8] = b"ok 1\noptimum length 20 arcs 1 2\nend\n";

const WHOLE: &[u8] =
    b"ok 1\noptimum length 20 arcs 1 2\nroute via 3 length 22 shared 0 plateau 6 rank 38 arcs 3 4 5\nend\n";

// A graph file, a line, and its reply.
const ROUTES: &[(&[u8], &[u8], &[u8])] = &[
    (SMALL, b"route 1 6\n", WHOLE),
    (SMALL, b"route 1 6 alpha 3/10\n", WHOLE),
    (SMALL, b"route 1 6 epsilon 1/10\n", WHOLE),
    (SMALL, b"route 6 1\n", b"none 1\n"),
    (SMALL, b"route 1 1\n", b"ok 1\noptimum length 0 arcs\nend\n"),
    (DETOUR, b"route 1 6\n", BEST),
    (
        TIES,
        b"route 1 4\n",
        b"ok 1\noptimum length 10 arcs 3 2\nroute via 1 length 10 shared 0 plateau 5 rank 15 arcs 1 4\nend\n",
    ),
    (
        FORK,
        b"route 1 6\n",
        b"ok 1\noptimum length 20 arcs 1 2 3\nroute via 4 length 21 shared 5 plateau 5 rank 42 arcs 1 4 5 6\nend\n",
    ),
    (
        PARALLEL,
        b"route 1 2\n",
        b"ok 1\noptimum length 7 arcs 1\nend\n",
    ),
    (
        SMALL,
        b"route 1 6 size 1\n",
        b"ok 1\noptimum length 20 arcs 1 2\nmore 1.1.6.4.5.1.4.1.4.1.1\nend\n",
    ),
    (
        SMALL,
        b"next 1.1.6.4.5.1.4.1.4.1.1\n",
        b"ok 1\nroute via 3 length 22 shared 0 plateau 6 rank 38 arcs 3 4 5\nend\n",
    ),
    (SMALL, b"next 1.1.6.4.5.1.4.1.4.1.2\n", b"ok 1\nend\n"),
    (SMALL, b"next 1.1.6.4.5.1.4.1.4.1.99\n", b"ok 1\nend\n"),
    (SMALL, b"next 1.1.6.8.10.1.4.1.4.5.0\n", WHOLE),
    (SMALL, b"next 1.6.1.4.5.1.4.1.4.5.0\n", b"none 1\n"),
    (SMALL, b"route 1 6 since 1 size 64\n", WHOLE),
];

#[test]
fn routes_and_their_pages(rt: HostRuntime) -> Result<(), Fail> {
    for row in ROUTES {
        answers(&rt, rt.alloc(), row.0, row.1, row.2)?;
    }
    Ok(())
}

// A graph file, a line, and its reply.
const VERDICTS: &[(&[u8], &[u8], &[u8])] = &[
    (SMALL, b"optimum 1 6\n", BEST),
    (
        SMALL,
        b"optimum 1 1\n",
        b"ok 1\noptimum length 0 arcs\nend\n",
    ),
    (SMALL, b"optimum 6 1\n", b"none 1\n"),
    (
        SMALL,
        b"optimum 1 3\n",
        b"ok 1\noptimum length 11 arcs 3\nend\n",
    ),
    (SMALL, b"version\n", b"version 1\n"),
    (SMALL, b"why 1 6 4\n", b"ok 1\nverdict 4 listed 3\nend\n"),
    (SMALL, b"why 1 6 5\n", b"ok 1\nverdict 5 unreached\nend\n"),
    (SMALL, b"why 1 6 2\n", b"ok 1\nverdict 2 optimum\nend\n"),
    (SMALL, b"why 6 1 2\n", b"none 1\n"),
    (
        DETOUR,
        b"why 1 6 3\n",
        b"ok 1\nverdict 3 local 0 2 20\nend\n",
    ),
    (
        SMALL,
        b"why 1 6 3 alpha 13/40\n",
        b"ok 1\nverdict 3 local 0 3 20\nend\n",
    ),
    (
        SMALL,
        b"why 1 6 3 alpha 3/10\n",
        b"ok 1\nverdict 3 listed 3\nend\n",
    ),
    (
        SMALL,
        b"why 1 6 3 epsilon 9/100\n",
        b"ok 1\nverdict 3 long 22\nend\n",
    ),
    (
        SMALL,
        b"why 1 6 3 epsilon 1/10\n",
        b"ok 1\nverdict 3 listed 3\nend\n",
    ),
    (
        FORK,
        b"why 1 6 4 gamma 1/10\n",
        b"ok 1\nverdict 4 shared 5\nend\n",
    ),
    (
        FORK,
        b"why 1 6 4 gamma 1/4\n",
        b"ok 1\nverdict 4 listed 4\nend\n",
    ),
    (
        STUB,
        b"why 1 3 4 gamma 1/1 alpha 0/1 epsilon 1/1\n",
        b"ok 1\nverdict 4 stretch 0 3 1\nend\n",
    ),
    (TIES, b"why 1 4 2\n", b"ok 1\nverdict 2 listed 1\nend\n"),
];

#[test]
fn verdicts_and_optima(rt: HostRuntime) -> Result<(), Fail> {
    for row in VERDICTS {
        answers(&rt, rt.alloc(), row.0, row.1, row.2)?;
    }
    Ok(())
}

// Lines, and their replies.
const ODD_LINES: &[(&[u8], &[u8])] = &[
    (b"  route\t1 6 \n", WHOLE),
    (b"route 1 6\r\n", WHOLE),
    (b"route 1 6", WHOLE),
    (b"route 01 0006\n", WHOLE),
    (b"", b""),
    (b"\n \t \n\r\n", b""),
    (b"version\n\nversion\n", b"version 1\nversion 1\n"),
    (b"version\nquit\nversion\n", b"version 1\n"),
    (b"version\nquit", b"version 1\n"),
    (b"quit now\nversion\n", b"error syntax\nversion 1\n"),
    (b"route 1 6 alpha 1/4 gamma 4/5\n", WHOLE),
    (b"route 1 6 since 0000000000000000001\n", WHOLE),
    (
        b"route 1 6 since 00000000000000000001\nversion\n",
        b"error syntax\nversion 1\n",
    ),
    (b" length\t04 7\r\npublish", b"staged 1\npublished 2\n"),
    (
        b"next 1.1.6\nnext\nnext a b\n",
        b"error cursor\nerror syntax\nerror syntax\n",
    ),
    (b"route 1 6 \xff\nversion\n", b"error syntax\nversion 1\n"),
];

#[test]
fn odd_lines(rt: HostRuntime) -> Result<(), Fail> {
    for row in ODD_LINES {
        answers(&rt, rt.alloc(), SMALL, row.0, row.1)?;
    }
    Ok(())
}

// So many bytes stand before the end of a line; its reply, and that of the line after it.
const LONG_LINES: &[(usize, &[u8])] = &[
    (1024, b"version 1\nversion 1\n"),
    (1025, b"error long\nversion 1\n"),
    (200000, b"error long\nversion 1\n"),
];

#[test]
fn a_line_of_1024_bytes_is_read_and_a_longer_one_is_skipped(rt: HostRuntime) -> Result<(), Fail> {
    for row in LONG_LINES {
        let (length, reply) = *row;
        let mut input = vec![in rt.alloc(); b' '; length.saturating_sub(7)]?;
        input.extend_from_slice(b"version\r\nversion\n")?;
        answers(&rt, rt.alloc(), SMALL, &input, reply)?;
    }
    Ok(())
}
