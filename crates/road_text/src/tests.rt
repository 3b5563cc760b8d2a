use crate::{
    Advance, LineReader, SinkFailed, canonical_number, first_byte, first_field, number,
    push_number, put, put_number, put_numbered, put_wide_number,
};
use road_io::{Gathered, MemSink, MemSource, Pending, Put};
use std::alloc::{AllocError, Global};
use std::test::Fail;

/// What a reader gives of a text: each line after its mark, and the mark of the end. `+` is a whole
/// line, `-` the last one, `L` and `l` are long ones with their first byte, `.` is the end, `!` too
/// many bytes and `?` a failed read.
fn trace(
    alloc: Global,
    text: &[u8],
    piece: usize,
    failing: &[u64],
    most: u64,
) -> Result<Vec<u8>, AllocError> {
    let mut out = Vec::new(alloc);
    let mut source = MemSource::new(text, piece, failing);
    let mut reader = LineReader::new(alloc, 4, most)?;
    for _ in 0..20u8 {
        let step = reader.advance(&mut source);
        match step {
            Advance::Whole => {
                out.push(b'+')?;
                out.extend_from_slice(reader.line())?;
            }
            Advance::Last => {
                out.push(b'-')?;
                out.extend_from_slice(reader.line())?;
                break;
            }
            Advance::Long { whole, first } => {
                out.push(if whole { b'L' } else { b'l' })?;
                out.push(first.unwrap_or(b'_'))?;
                if !whole {
                    break;
                }
            }
            Advance::End => {
                out.push(b'.')?;
                break;
            }
            Advance::Spent => {
                out.push(b'!')?;
                break;
            }
            Advance::Failed => {
                out.push(b'?')?;
                break;
            }
        }
    }
    Ok(out)
}

#[test]
fn shows_lines_however_they_are_cut(rt: HostRuntime) -> Result<(), Fail> {
    let rows: [(&[u8], &[u8]); 14] = [
        (b"", b"."),
        (b"\n", b"+."),
        (b"\r\n", b"+."),
        (b"ab\ncd\n", b"+ab+cd."),
        (b"ab\r\ncd\r", b"+ab-cd"),
        (b"a\rb\r\r\n", b"+a\rb\r."),
        (b"abcd\r\nx", b"+abcd-x"),
        (b"abcde\nx", b"La-x"),
        (b"abcde", b"la"),
        (b"abcd\r", b"-abcd"),
        (b" \t c a very long line\n\xff", b"Lc-\xff"),
        (b"        \nx\n", b"L_+x."),
        (b"    \r\r\n", b"L\r."),
        (b"\n\n  x long enough", b"++lx"),
    ];
    for (text, wanted) in rows {
        for piece in [0, 1, 2, 3, 7] {
            let found = trace(rt.alloc(), text, piece, &[], 1000)?;
            assert_eq!(rt; found.as_slice(), wanted, "{text:?} by {piece}");
        }
    }
    Ok(())
}

#[test]
fn ends_at_the_limit_of_bytes(rt: HostRuntime) -> Result<(), Fail> {
    let rows: [(&[u8], u64, &[u8]); 7] = [
        (b"ab\ncd\n", 6, b"+ab+cd."),
        (b"ab\ncd\n", 5, b"+ab!"),
        (b"ab\ncd", 5, b"+ab-cd"),
        (b"ab\ncd", 4, b"+ab!"),
        (b"ab\na long line", 9, b"+ab!"),
        (b"", 0, b"."),
        (b"a", 0, b"!"),
    ];
    for (text, most, wanted) in rows {
        for piece in [0, 1, 2] {
            let found = trace(rt.alloc(), text, piece, &[], most)?;
            assert_eq!(rt; found.as_slice(), wanted, "{text:?} by {piece} of {most}");
        }
    }
    Ok(())
}

#[test]
fn tells_of_a_failed_read(rt: HostRuntime) -> Result<(), Fail> {
    // The read that is to fail, in reads of two bytes.
    let rows: [(&[u8], u64, &[u8]); 4] = [
        (b"a\nbc\n", 0, b"?"),
        (b"a\nbc\n", 1, b"+a?"),
        (b"a\nbcdefgh\n", 3, b"+a?"),
        (b"a\nbcdefgh\n", 5, b"+aLb?"),
    ];
    for (text, fails, wanted) in rows {
        let found = trace(rt.alloc(), text, 2, &[fails], 1000)?;
        assert_eq!(rt; found.as_slice(), wanted, "{text:?} at {fails}");
    }
    Ok(())
}

#[test]
fn keeps_lines_that_cross_pieces(rt: HostRuntime) -> Result<(), Fail> {
    // 30000 lines of 9 bytes cross the buffer's pieces at each place of a line.
    let mut text = Gathered::new(rt.alloc());
    for i in 0..30000u64 {
        put_number(&mut text, 10000000 + i)?;
        put(&mut text, b"\n")?;
    }
    let mut source = MemSource::new(text.bytes(), 0, &[]);
    let mut reader = LineReader::new(rt.alloc(), 8, 270000)?;
    for i in 0..30000u64 {
        assert!(rt; reader.advance(&mut source) == Advance::Whole);
        assert_eq!(rt; number(reader.line()), Some(10000000 + i));
    }
    assert!(rt; reader.advance(&mut source) == Advance::End);
    Ok(())
}

#[test]
fn finds_fields(rt: HostRuntime) {
    let rows: [(&[u8], Option<(&[u8], &[u8])>); 5] = [
        (b"", None),
        (b" \t", None),
        (b"ab", Some((b"ab", b""))),
        (b" \tab\r c", Some((b"ab\r", b" c"))),
        (b"ab ", Some((b"ab", b" "))),
    ];
    for (line, wanted) in rows {
        assert_eq!(rt; first_field(line), wanted, "{line:?}");
    }
    assert_eq!(rt; first_byte(b" \tc"), Some(b'c'));
    assert_eq!(rt; first_byte(b" \t"), None);
}

#[test]
fn reads_numbers(rt: HostRuntime) {
    let rows: [(&[u8], Option<u64>, Option<u64>); 11] = [
        (b"", None, None),
        (b"0", Some(0), Some(0)),
        (b"00", Some(0), None),
        (b"007", Some(7), None),
        (
            b"9999999999999999999",
            Some(9999999999999999999),
            Some(9999999999999999999),
        ),
        (b"0000000000000000001", Some(1), None),
        (b"00000000000000000001", None, None),
        (b"10000000000000000000", None, None),
        (b"-1", None, None),
        (b"+1", None, None),
        (b"1a", None, None),
    ];
    for (text, any, canonical) in rows {
        assert_eq!(rt; number(text), any, "{text:?}");
        assert_eq!(rt; canonical_number(text), canonical, "{text:?}");
    }
}

#[test]
fn writes_texts_piece_by_piece(rt: HostRuntime) -> Result<(), Fail> {
    let mut sink = MemSink::new(rt.alloc(), &[4]);
    put(&mut sink, b"0 ")?;
    put_number(&mut sink, 18446744073709551615)?;
    put_numbered(&mut sink, b" then ", 7)?;
    assert_eq!(rt; put_wide_number(&mut sink, 0), Err(SinkFailed));
    put_wide_number(&mut sink, 340282366920938463463374607431768211455)?;
    assert_eq!(rt;
        sink.bytes(),
        b"0 18446744073709551615 then 7340282366920938463463374607431768211455".as_slice()
    );
    Ok(())
}

#[test]
fn puts_numbers_together(rt: HostRuntime) {
    let mut text = Pending::new();
    push_number(&mut text, 0);
    text.push(b" ");
    push_number(&mut text, 18446744073709551615);
    let mut sink = MemSink::new(rt.alloc(), &[]);
    assert_eq!(rt; text.send(&mut sink), Put::Done);
    assert_eq!(rt; sink.bytes(), b"0 18446744073709551615".as_slice());
}
