//! Changed lengths, new versions and kept plans.

use crate::graphs::SMALL;
use crate::runs::answers;
use std::test::Fail;

/// The answer from 1 to 6 in versions 1 and 2, where no length was changed.
const WHOLE_1: &[u8] =
    b"ok 1\noptimum length 20 arcs 1 2\nroute via 3 length 22 shared 0 plateau 6 rank 38 arcs 3 4 5\nend\n";

// The lines of a session, and its replies.
const PUBLISHED: &[(&[u8], &[u8])] = &[
    (
        b"length 4 7\noptimum 3 4\npublish\noptimum 3 4\nversion\n",
        b"staged 1\nok 1\noptimum length 6 arcs 4\nend\n\
            published 2\nok 2\noptimum length 7 arcs 4\nend\nversion 2\n",
    ),
    (
        b"publish\nversion\noptimum 1 6\n",
        b"published 2\nversion 2\nok 2\noptimum length 20 arcs 1 2\nend\n",
    ),
    (
        b"length 1 50\nlength 1 3\npublish\noptimum 1 6\n",
        b"staged 1\nstaged 2\npublished 2\nok 2\noptimum length 13 arcs 1 2\nend\n",
    ),
    (
        b"length 1 3\nlength 1 50\npublish\nroute 1 6\n",
        b"staged 1\nstaged 2\npublished 2\nok 2\noptimum length 22 arcs 3 4 5\nend\n",
    ),
    (
        b"length 1 50\npublish\npublish\noptimum 1 6\n",
        b"staged 1\npublished 2\npublished 3\nok 3\noptimum length 22 arcs 3 4 5\nend\n",
    ),
    (
        b"length 1 50\npublish\nlength 1 10\npublish\noptimum 1 6\n",
        b"staged 1\npublished 2\nstaged 1\npublished 3\nok 3\noptimum length 20 arcs 1 2\nend\n",
    ),
    (
        b"length 4 20\npublish\nwhy 1 6 4\noptimum 1 4\nwhy 1 6 4 since 3\n",
        b"staged 1\npublished 2\nok 2\nverdict 4 long 36\nend\n\
            ok 2\noptimum length 31 arcs 3 4\nend\nerror behind 2\n",
    ),
    (
        b"route 6 1 since 2\npublish\nroute 6 1 since 2\nroute 6 1 since 1\nroute 6 1 since 3\n",
        b"error behind 1\npublished 2\nnone 2\nnone 2\nerror behind 2\n",
    ),
    (
        b"length 1 4294967295\npublish\noptimum 1 2\n",
        b"staged 1\npublished 2\nok 2\noptimum length 4294967295 arcs 1\nend\n",
    ),
    (b"length 1 50\nquit\npublish\n", b"staged 1\n"),
];

#[test]
fn a_change_is_seen_from_its_publication_on(rt: HostRuntime) -> Result<(), Fail> {
    for row in PUBLISHED {
        answers(&rt, rt.alloc(), SMALL, row.0, row.1)?;
    }
    Ok(())
}

// A line, and its reply.
const REFUSED: &[(&[u8], &[u8])] = &[
    (b"length 7 5\n", b"error arc\n"),
    (b"length 0 5\n", b"error arc\n"),
    (b"length 7 0\n", b"error arc\n"),
    (b"length 1 0\n", b"error length\n"),
    (b"length 1 4294967296\n", b"error length\n"),
    (b"length 5\n", b"error syntax\n"),
    (b"length 1 5 9\n", b"error syntax\n"),
    (b"length 1 -5\n", b"error syntax\n"),
    (b"publish 1\n", b"error syntax\n"),
];

#[test]
fn a_refused_change_leaves_what_is_staged(rt: HostRuntime) -> Result<(), Fail> {
    let alloc = rt.alloc();
    for row in REFUSED {
        let (line, reply) = *row;
        let mut input = Vec::from_slice(alloc, b"length 1 50\n")?;
        input.extend_from_slice(line)?;
        input.extend_from_slice(b"length 2 9\npublish\noptimum 1 2\n")?;
        let mut output = Vec::from_slice(alloc, b"staged 1\n")?;
        output.extend_from_slice(reply)?;
        output.extend_from_slice(b"staged 2\npublished 2\nok 2\noptimum length 50 arcs 1\nend\n")?;
        answers(&rt, alloc, SMALL, &input, &output)?;
    }
    Ok(())
}

// The lines of a session, and its replies.
const CURSORS: &[(&[u8], &[u8])] = &[
    (
        b"route 1 6 size 1\nlength 4 7\npublish\nnext 1.1.6.4.5.1.4.1.4.1.1\nroute 1 6\nroute 1 6 since 9\n",
        b"ok 1\noptimum length 20 arcs 1 2\nmore 1.1.6.4.5.1.4.1.4.1.1\nend\nstaged 1\npublished 2\n\
            ok 1\nroute via 3 length 22 shared 0 plateau 6 rank 38 arcs 3 4 5\nend\n\
            ok 2\noptimum length 20 arcs 1 2\nroute via 3 length 23 shared 0 plateau 7 rank 39 arcs 3 4 5\nend\n\
            error behind 2\n",
    ),
    // Nobody was given it.
    (
        b"publish\nnext 1.1.6.4.5.1.4.1.4.1.1\nversion\n",
        b"published 2\nerror gone 2\nversion 2\n",
    ),
    (
        b"publish\nnext 2.6.1.4.5.1.4.1.4.1.1\nversion\n",
        b"published 2\nnone 2\nversion 2\n",
    ),
    // The version isn't there yet.
    (
        b"publish\nnext 3.1.6.4.5.1.4.1.4.1.1\npublish\nnext 3.6.1.4.5.1.4.1.4.1.1\n",
        b"published 2\nerror gone 2\npublished 3\nnone 3\n",
    ),
    // The same ratio, by other numbers.
    (
        b"route 6 1\npublish\nnext 1.6.1.8.10.1.4.1.4.1.1\nnext 1.6.1.4.5.1.4.1.4.1.1\n",
        b"none 1\npublished 2\nerror gone 2\nnone 1\n",
    ),
    // The same answer, by pages of another size.
    (
        b"route 6 1 size 1\npublish\nnext 1.6.1.4.5.1.4.1.4.64.0\n",
        b"none 1\npublished 2\nnone 1\n",
    ),
    // Its arc has another length now, and an optimum and a verdict are no kept plans.
    (
        b"optimum 6 1\nwhy 6 1 3\npublish\nnext 1.6.1.4.5.1.4.1.4.5.0\n",
        b"none 1\nnone 1\npublished 2\nerror gone 2\n",
    ),
    (
        b"route 6 1\npublish\nroute 6 1 size 0\nnext 1.6.1.4.5.1.4.1.4.65.0\nnext 1.6.1.4.5.1.4.1.4.5.0\n",
        b"none 1\npublished 2\nerror size\nerror size\nnone 1\n",
    ),
];

#[test]
fn a_cursor_points_into_its_own_version(rt: HostRuntime) -> Result<(), Fail> {
    for row in CURSORS {
        answers(&rt, rt.alloc(), SMALL, row.0, row.1)?;
    }
    Ok(())
}

/// Routes of version 2, in which arc 4 has the length 7.
const ROUTES: &[(&[u8], &[u8])] = &[
    (b"route 1 1\n", b"ok 2\noptimum length 0 arcs\nend\n"),
    (b"route 1 2\n", b"ok 2\noptimum length 10 arcs 1\nend\n"),
    (
        b"route 1 3\n",
        b"ok 2\noptimum length 11 arcs 3\nroute via 1 length 11 shared 0 plateau 10 rank 12 arcs 1 6\nend\n",
    ),
    (
        b"route 1 4\n",
        b"ok 2\noptimum length 18 arcs 3 4\nroute via 1 length 18 shared 7 plateau 10 rank 33 arcs 1 6 4\nend\n",
    ),
    (b"route 2 2\n", b"ok 2\noptimum length 0 arcs\nend\n"),
    (b"route 2 3\n", b"ok 2\noptimum length 1 arcs 6\nend\n"),
    (b"route 2 4\n", b"ok 2\noptimum length 8 arcs 6 4\nend\n"),
    (b"route 2 6\n", b"ok 2\noptimum length 10 arcs 2\nend\n"),
];

const NEXT: &[u8] = b"next 1.1.6.4.5.1.4.1.4.1.1\n";

const NEXT_PAGE: &[u8] =
    b"ok 1\nroute via 3 length 22 shared 0 plateau 6 rank 38 arcs 3 4 5\nend\n";

// So many routes stand before the cursor is used, and so many after it; the last reply.
const KEPT: &[(usize, usize, &[u8])] = &[
    (0, 7, NEXT_PAGE),
    (0, 8, b"error gone 2\n"),
    (7, 7, NEXT_PAGE),
    (7, 8, b"error gone 2\n"),
];

#[test]
fn the_last_eight_plans_are_kept(rt: HostRuntime) -> Result<(), Fail> {
    let alloc = rt.alloc();
    for row in KEPT {
        let (before, after, last) = *row;
        let mut input = Vec::from_slice(alloc, b"route 1 6 size 1\nlength 4 7\npublish\n")?;
        let mut output = Vec::from_slice(
            alloc,
            b"ok 1\noptimum length 20 arcs 1 2\nmore 1.1.6.4.5.1.4.1.4.1.1\nend\nstaged 1\npublished 2\n",
        )?;
        for (line, reply) in ROUTES.iter().take(before) {
            input.extend_from_slice(line)?;
            output.extend_from_slice(reply)?;
        }
        input.extend_from_slice(NEXT)?;
        output.extend_from_slice(NEXT_PAGE)?;
        for (line, reply) in ROUTES.iter().take(after) {
            input.extend_from_slice(line)?;
            output.extend_from_slice(reply)?;
        }
        input.extend_from_slice(NEXT)?;
        output.extend_from_slice(last)?;
        answers(&rt, alloc, SMALL, &input, &output)?;
    }
    Ok(())
}

#[test]
fn a_kept_plan_is_shown_as_it_was_made(rt: HostRuntime) -> Result<(), Fail> {
    let input = b"route 1 6\nlength 1 3\npublish\nnext 1.1.6.4.5.1.4.1.4.5.0\n";
    let alloc = rt.alloc();
    let mut output = Vec::from_slice(alloc, WHOLE_1)?;
    output.extend_from_slice(b"staged 1\npublished 2\n")?;
    output.extend_from_slice(WHOLE_1)?;
    answers(&rt, alloc, SMALL, input, &output)
}
