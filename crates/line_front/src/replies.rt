//! Replies, written to a sink.

ghost use Rattle.std.specs.Prelude.{◌++◌, codes};
ghost use Rattle.std.specs.Option.{option_copied};
ghost use Rattle.route_ranking.specs.Cursors.{cursor_text};
ghost use Rattle.road_text.specs.Pieces.{put_of, Appends};
ghost use Rattle.line_front.specs.Replies.{HasItems, HasSpan, best_text, end_text, error_text, items_text, line_text};
ghost use Rattle.line_front.specs.Replies.{more_text, numbered, ok_text, page_text, pair_text, reply_text, spaced_text};
ghost use Rattle.line_front.specs.Replies.{verdict_text, why_text};

use crate::items::{put_items, put_optimum};
use road_io::Sink;
use road_model::{Cursor, ErrorKind, Optimum, PageSpan, Pair, Plan, Reply, Verdict};
use road_text::{SinkFailed, put, put_numbered};
use route_ranking::write_cursor;

/// Writes a line of a word with a number after it.
fn put_numbered_line<K: Sink>(sink: &mut K, word: &[u8], number: u64) -> Result<(), SinkFailed>
    ensures { Appends K.written K.faults (line_text (numbered word.now number))
        sink.old sink.new (put_of result) }
{
    put_numbered(sink, word, number)?;
    put(sink, b"\n")
}

fn put_ok<K: Sink>(sink: &mut K, number: u64) -> Result<(), SinkFailed>
    ensures { Appends K.written K.faults (ok_text number) sink.old sink.new (put_of result) }
{
    put_numbered_line(sink, b"ok ", number)
}

fn put_end<K: Sink>(sink: &mut K) -> Result<(), SinkFailed>
    ensures { Appends K.written K.faults end_text sink.old sink.new (put_of result) }
{
    put(sink, b"end\n")
}

fn put_best<K: Sink>(sink: &mut K, number: u64, optimum: &Optimum) -> Result<(), SinkFailed>
    ensures { Appends K.written K.faults (best_text number optimum.now) sink.old sink.new (put_of result) }
{
    put_ok(sink, number)?;
    put_optimum(sink, optimum)?;
    put_end(sink)
}

/// Writes the items that a span has in a plan.
fn put_shown<K: Sink>(sink: &mut K, span: &PageSpan, shown: Option<&Plan>) -> Result<(), SinkFailed>
    requires { HasSpan span.now (option_copied shown) }
    ensures { Appends K.written K.faults (items_text span.now (option_copied shown.entry))
        sink.old sink.new (put_of result) }
{
    match shown {
        Some(Plan::Found { optimum, others }) => {
            put_items(sink, span, optimum, others.as_slice())
        }
        _ => Ok(()),
    }
}

/// Writes the line of the cursor of the next page.
fn put_cursor_line<K: Sink>(sink: &mut K, cursor: &Cursor) -> Result<(), SinkFailed>
    ensures { Appends K.written K.faults (line_text (codes "more " ++ cursor_text cursor.now))
        sink.old sink.new (put_of result) }
{
    put(sink, b"more ")?;
    write_cursor(sink, cursor)?;
    put(sink, b"\n")
}

/// Writes that line, where another page follows.
fn put_more<K: Sink>(sink: &mut K, more: Option<Cursor>) -> Result<(), SinkFailed>
    ensures { Appends K.written K.faults (more_text more) sink.old sink.new (put_of result) }
{
    match more {
        Some(cursor) => put_cursor_line(sink, &cursor),
        None => Ok(()),
    }
}

fn put_page<K: Sink>(
    sink: &mut K,
    number: u64,
    span: &PageSpan,
    more: Option<Cursor>,
    shown: Option<&Plan>,
) -> Result<(), SinkFailed>
    requires { HasSpan span.now (option_copied shown) }
    ensures { Appends K.written K.faults (page_text number span.now more (option_copied shown.entry))
        sink.old sink.new (put_of result) }
{
    put_ok(sink, number)?;
    put_shown(sink, span, shown)?;
    put_more(sink, more)?;
    put_end(sink)
}

fn put_pair<K: Sink>(sink: &mut K, pair: &Pair) -> Result<(), SinkFailed>
    ensures { Appends K.written K.faults (pair_text pair.now) sink.old sink.new (put_of result) }
{
    put_numbered(sink, b"", u64::from(pair.first))?;
    put_numbered(sink, b" ", u64::from(pair.last))?;
    put_numbered(sink, b" ", pair.distance)
}

/// Writes a word with a pair after it.
fn put_paired<K: Sink>(sink: &mut K, word: &[u8], pair: &Pair) -> Result<(), SinkFailed>
    ensures { Appends K.written K.faults (word.now ++ pair_text pair.now) sink.old sink.new (put_of result) }
{
    put(sink, word)?;
    put_pair(sink, pair)
}

/// Writes a verdict, from its word on.
fn put_verdict<K: Sink>(sink: &mut K, verdict: &Verdict) -> Result<(), SinkFailed>
    ensures { Appends K.written K.faults (verdict_text verdict.now) sink.old sink.new (put_of result) }
{
    match verdict {
        Verdict::Unreached => put(sink, b"unreached"),
        Verdict::Optimum => put(sink, b"optimum"),
        Verdict::Long(length) => put_numbered(sink, b"long ", *length),
        Verdict::Shared(length) => put_numbered(sink, b"shared ", *length),
        Verdict::Local(pair) => put_paired(sink, b"local ", pair),
        Verdict::Stretch(pair) => put_paired(sink, b"stretch ", pair),
        Verdict::Listed(name) => put_numbered(sink, b"listed ", u64::from(name.number())),
    }
}

/// Writes the line of a verdict.
fn put_verdict_line<K: Sink>(sink: &mut K, via: u64, verdict: &Verdict) -> Result<(), SinkFailed>
    ensures { Appends K.written K.faults
        (line_text (numbered (codes "verdict ") via ++ codes " " ++ verdict_text verdict.now))
        sink.old sink.new (put_of result) }
{
    put_numbered(sink, b"verdict ", via)?;
    put(sink, b" ")?;
    put_verdict(sink, verdict)?;
    put(sink, b"\n")
}

fn put_why<K: Sink>(
    sink: &mut K,
    number: u64,
    via: u64,
    verdict: &Verdict,
) -> Result<(), SinkFailed>
    ensures { Appends K.written K.faults (why_text number via verdict.now) sink.old sink.new (put_of result) }
{
    put_ok(sink, number)?;
    put_verdict_line(sink, via, verdict)?;
    put_end(sink)
}

/// Writes a number after a space, where there is one.
fn put_spaced<K: Sink>(sink: &mut K, number: Option<u64>) -> Result<(), SinkFailed>
    ensures { Appends K.written K.faults (spaced_text number) sink.old sink.new (put_of result) }
{
    match number {
        Some(number) => put_numbered(sink, b" ", number),
        None => Ok(()),
    }
}

/// Writes an error, from its word on.
fn put_kind<K: Sink>(sink: &mut K, kind: ErrorKind) -> Result<(), SinkFailed>
    ensures { Appends K.written K.faults (error_text kind) sink.old sink.new (put_of result) }
{
    put(sink, kind.word().as_bytes())?;
    put_spaced(sink, kind.number())
}

fn put_error<K: Sink>(sink: &mut K, kind: ErrorKind) -> Result<(), SinkFailed>
    ensures { Appends K.written K.faults (line_text (codes "error " ++ error_text kind))
        sink.old sink.new (put_of result) }
{
    put(sink, b"error ")?;
    put_kind(sink, kind)?;
    put(sink, b"\n")
}

/// Writes the lines of a reply, piece by piece; where a sink is slow with small pieces, hand in one that gathers them.
/// A page shows the items of the plan beside it, and with any other reply the plan means nothing.
///
/// It takes no memory. Where it fails a prefix of the lines is written.
pub fn write_reply<K: Sink>(
    sink: &mut K,
    reply: &Reply,
    shown: Option<&Plan>,
) -> Result<(), SinkFailed>
    requires { HasItems reply.now (option_copied shown) }
    ensures { Appends K.written K.faults (reply_text reply.now (option_copied shown.entry))
        sink.old sink.new (put_of result) }
{
    match reply {
        Reply::Best { number, optimum } => put_best(sink, *number, optimum),
        Reply::Page { number, span, more } => put_page(sink, *number, span, *more, shown),
        Reply::NoPath { number } => put_numbered_line(sink, b"none ", *number),
        Reply::Why {
            number,
            via,
            verdict,
        } => put_why(sink, *number, u64::from(via.number()), verdict),
        Reply::Version { number } => put_numbered_line(sink, b"version ", *number),
        Reply::Staged { count } => put_numbered_line(sink, b"staged ", *count),
        Reply::Published { number } => put_numbered_line(sink, b"published ", *number),
        Reply::Error(kind) => put_error(sink, *kind),
    }
}

#[cfg(test)]
mod tests;
