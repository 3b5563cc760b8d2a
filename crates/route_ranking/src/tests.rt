use crate::{page, read_cursor, write_cursor};
use road_io::MemSink;
use road_model::{Cursor, CursorQuery, PageSpan};
use road_text::SinkFailed;
use std::test::Fail;

/// The second page of one item each, of the usual query from vertex 1 to vertex 6 in version 1.
fn second_page() -> Cursor {
    Cursor {
        version: 1,
        query: CursorQuery::usual(1, 6),
        size: 1,
        offset: 1,
    }
}

#[test]
fn cursors_are_read_and_written(rt: HostRuntime) -> Result<(), Fail> {
    let text = b"1.1.6.4.5.1.4.1.4.1.1";
    assert_eq!(rt; read_cursor(text), Some(second_page()));
    let mut sink = MemSink::new(rt.alloc(), &[]);
    assert_eq!(rt; write_cursor(&mut sink, &second_page()), Ok(()));
    assert_eq!(rt; sink.bytes(), text.as_slice());
    let nineteen = read_cursor(b"9999999999999999999.1.6.4.5.1.4.1.4.1.0").ok_or("none")?;
    assert_eq!(rt; nineteen.version, 9_999_999_999_999_999_999);
    assert_eq!(rt; nineteen.offset, 0);
    Ok(())
}

#[test]
fn other_texts_are_no_cursors(rt: HostRuntime) {
    let texts: [&[u8]; 9] = [
        b"",
        b"1.1.6",
        b"1.1.6.4.5.1.4.1.4.1",
        b"1.1.6.4.5.1.4.1.4.1.1.",
        b"1.1.6.4.5.1.4.1.4.1.1.1",
        b"01.1.6.4.5.1.4.1.4.1.1",
        b"1.1.6.4..1.4.1.4.1.1",
        b"1.1.6.4.5.1.4.1.4.1.x",
        b"10000000000000000000.1.6.4.5.1.4.1.4.1.1",
    ];
    for text in texts {
        assert_eq!(rt; read_cursor(text), None, "{text:?}");
    }
}

#[test]
fn a_failed_write_is_told(rt: HostRuntime) {
    let mut sink = MemSink::new(rt.alloc(), &[3]);
    assert_eq!(rt; write_cursor(&mut sink, &second_page()), Err(SinkFailed));
    assert_eq!(rt; sink.bytes(), b"1.1".as_slice());
}

#[test]
fn pages_end_with_the_items(rt: HostRuntime) {
    let rows = [
        (0, 1, 0, 1, true),
        (1, 1, 1, 1, false),
        (99, 5, 2, 0, false),
    ];
    for (offset, size, first, count, more) in rows {
        let span = PageSpan { first, count, more };
        assert_eq!(rt; page(2, size, offset), span, "behind {offset}");
    }
}
