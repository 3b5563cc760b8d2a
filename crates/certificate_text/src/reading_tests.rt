use crate::{CertError, CertFault, CertKind, Finding, read_certificate};
use road_io::MemSource;
use std::alloc::Global;
use std::test::Fail;

/// A certificate of 8 lines.
const NONE: &[u8] =
    b"cert 1\ngraph 6 6\nquery 6 1 4/5 1/4 1/4\nfrom 6 all\nrow 6 0 0\nend\nnone\ndone\n";

/// One with each kind of line and of reason.
const FULL: &[u8] =
    b"cert 1\ngraph 3 4\nquery 1 3 4/5 1/4 1/4\nfrom 1 radius 9\nrow 1 0 0\nrow 2 5 1\nend\n\
to 3 all\nend\noptimum 7 1 2\nroute 2 8 0 0 16 3 4\nroute 3 9 0 0 18\nvia 1 optimum\nvia 2 shared 0\n\
via 3 local 0 1 4\nvia 4 stretch 0 1\nvia 5 listed 2\ndone\n";

/// How many blocks, rows of them, alternatives and reasons the certificate of a text has, read in pieces of this
/// size.
fn sizes(
    alloc: Global,
    text: &[u8],
    piece: usize,
    failing: &[u64],
) -> Result<(usize, usize, usize, usize), CertError> {
    let mut source = MemSource::new(text, piece, failing);
    let certificate = read_certificate(alloc, &mut source)?;
    let mut rows = 0usize;
    for block in certificate.blocks.as_slice() {
        rows = rows.saturating_add(block.rows.len());
    }
    let (routes, vias) = match &certificate.finding {
        Finding::Nothing => (0, 0),
        Finding::Found { routes, vias, .. } => (routes.len(), vias.len()),
    };
    Ok((certificate.blocks.len(), rows, routes, vias))
}

fn refused(line: u64, kind: CertKind) -> Result<(usize, usize, usize, usize), CertError> {
    Err(CertError::Refused(CertFault { line, kind }))
}

#[test]
fn reads_certificates(rt: HostRuntime) {
    for piece in [0, 1, 7] {
        assert_eq!(rt; sizes(rt.alloc(), NONE, piece, &[]), Ok((1, 1, 0, 0)));
        assert_eq!(rt; sizes(rt.alloc(), FULL, piece, &[]), Ok((2, 2, 2, 5)));
    }
}

#[test]
fn answers_by_the_first_fault(rt: HostRuntime) {
    let rows: [(&[u8], u64, CertKind); 18] = [
        (b"", 1, CertKind::Truncated),
        (b"cert 1", 1, CertKind::Truncated),
        (b"cert 2\n", 1, CertKind::Syntax),
        (b"cert 1\r\n", 1, CertKind::Syntax),
        (b"cert 1 \n", 1, CertKind::Syntax),
        (b"\n", 1, CertKind::Syntax),
        (b"cert 1\ncert 1\n", 2, CertKind::Syntax),
        (b"cert 1\ngraph 06 6\n", 2, CertKind::Syntax),
        (b"cert 1\ngraph  6 6\n", 2, CertKind::Syntax),
        (b"cert 1\ngraph 6 6 6\n", 2, CertKind::Syntax),
        (b"cert 1\ngraph 6\n", 2, CertKind::Syntax),
        (
            b"cert 1\ngraph 9999999999999999999 0\nend\n",
            3,
            CertKind::Syntax,
        ),
        (
            b"cert 1\ngraph 10000000000000000000 0\nend\n",
            2,
            CertKind::Syntax,
        ),
        (
            b"cert 1\ngraph 6 6\nquery 6 1 4/5 1/4 1/4\nnone\ndone\n",
            4,
            CertKind::Syntax,
        ),
        (
            b"cert 1\ngraph 6 6\nquery 6 1 4/5 1/4 1\n",
            3,
            CertKind::Syntax,
        ),
        (&NONE[..50], 5, CertKind::Truncated),
        (&NONE[..73], 8, CertKind::Truncated),
        (
            b"cert 1\ngraph 6 6\nquery 6 1 4/5 1/4 1/4\nfrom 6 all\nend\nnone\ndone\n\n",
            8,
            CertKind::Syntax,
        ),
    ];
    for (text, line, kind) in rows {
        for piece in [0, 1, 5] {
            let found = sizes(rt.alloc(), text, piece, &[]);
            assert_eq!(rt; found, refused(line, kind), "{text:?} by {piece}");
        }
    }
}

#[test]
fn refuses_bytes_after_the_last_line(rt: HostRuntime) -> Result<(), Fail> {
    for more in [b"\n", b"x"] {
        let mut text = Vec::from_slice(rt.alloc(), NONE)?;
        text.extend_from_slice(more)?;
        let found = sizes(rt.alloc(), text.as_slice(), 0, &[]);
        assert_eq!(rt; found, refused(9, CertKind::Syntax));
    }
    Ok(())
}

#[test]
fn tells_of_failed_reads(rt: HostRuntime) {
    let failed = Err(CertError::ReadFault);
    assert_eq!(rt; sizes(rt.alloc(), NONE, 0, &[0]), failed);
    assert_eq!(rt; sizes(rt.alloc(), NONE, 0, &[1]), failed);
    assert_eq!(rt; sizes(rt.alloc(), NONE, 7, &[3]), failed);
    assert_eq!(rt;
        sizes(rt.alloc(), b"cert 2\nx", 7, &[1]),
        refused(1, CertKind::Syntax)
    );
}
