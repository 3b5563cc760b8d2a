//! Refusals: of a line with two faults the first is named. A good line follows, and is answered.

use crate::graphs::SMALL;
use crate::runs::answers;
use std::alloc::Global;
use std::process::Abort;
use std::test::Fail;
use std::thread::Threads;

fn refused<R: Abort + Threads + Sync>(
    rt: &R,
    alloc: Global,
    line: &[u8],
    reply: &[u8],
) -> Result<(), Fail> {
    let mut input = Vec::from_slice(alloc, line)?;
    input.extend_from_slice(b"\nversion\n")?;
    let mut output = Vec::from_slice(alloc, reply)?;
    output.extend_from_slice(b"version 1\n")?;
    answers(rt, alloc, SMALL, &input, &output)
}

// A line, and its reply.
const TWO_FAULTS: &[(&[u8], &[u8])] = &[
    (b"route 0 6 gamma x/1", b"error syntax\n"),
    (b"route 1 6 size 2 size 2", b"error syntax\n"),
    (b"route 1 6 gamma", b"error syntax\n"),
    (b"route 1 6 color red", b"error syntax\n"),
    (b"route 1 6 gamma 1", b"error syntax\n"),
    (b"why 1 6 3 size 2", b"error syntax\n"),
    (b"why 1 6", b"error syntax\n"),
    (b"optimum 1 6 size 2", b"error syntax\n"),
    (b"optimum 1", b"error syntax\n"),
    (b"version 1", b"error syntax\n"),
    (b"hello", b"error syntax\n"),
    (b"next 01.7.6.4.5.1.4.1.4.1.1", b"error cursor\n"),
    (b"next 1.7.6.4.5.1.4.1.4.1", b"error cursor\n"),
    (b"next 1.7.6.4.0.1.4.1.4.1.1", b"error vertex\n"),
    (b"route 7 6 gamma 2/1", b"error vertex\n"),
    (b"route 1 0 gamma 2/1", b"error vertex\n"),
    (b"why 1 6 7 gamma 2/1", b"error vertex\n"),
    (b"optimum 1 7", b"error vertex\n"),
    (b"next 1.1.6.4.0.1.4.1.4.65.1", b"error ratio\n"),
    (b"route 1 6 gamma 2/1 size 0", b"error ratio\n"),
    (b"route 1 6 alpha 5/4 size 0", b"error ratio\n"),
    (b"route 1 6 epsilon 9/2 size 0", b"error ratio\n"),
    (b"route 1 6 epsilon 1/1000001 size 0", b"error ratio\n"),
    (b"why 1 6 3 alpha 2/1 since 2", b"error ratio\n"),
    (b"next 9.1.6.4.5.1.4.1.4.65.1", b"error size\n"),
    (b"route 1 6 size 0 since 2", b"error size\n"),
    (b"route 1 6 size 65 since 2", b"error size\n"),
    (b"route 6 1 since 2", b"error behind 1\n"),
    (b"why 6 1 3 since 2", b"error behind 1\n"),
    (b"next 9.6.1.4.5.1.4.1.4.1.1", b"error gone 1\n"),
];

#[test]
fn the_first_fault_of_a_line_is_named(rt: HostRuntime) -> Result<(), Fail> {
    for row in TWO_FAULTS {
        refused(&rt, rt.alloc(), row.0, row.1)?;
    }
    Ok(())
}

// A line, and its reply.
const ONE_FAULT: &[(&[u8], &[u8])] = &[
    (b"next 01.1.6.4.5.1.4.1.4.1.1", b"error cursor\n"),
    (b"why 1 6 7", b"error vertex\n"),
    (b"route 1 6 gamma 2/1", b"error ratio\n"),
    (b"route 1 6 size 0", b"error size\n"),
    (b"route 1 6 size 65", b"error size\n"),
    (b"route 1 6 since 2", b"error behind 1\n"),
    (b"next 2.1.6.4.5.1.4.1.4.1.1", b"error gone 1\n"),
];

#[test]
fn a_single_fault_is_named(rt: HostRuntime) -> Result<(), Fail> {
    for row in ONE_FAULT {
        refused(&rt, rt.alloc(), row.0, row.1)?;
    }
    Ok(())
}
