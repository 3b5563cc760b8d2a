//! A certificate into a sink. What is written gathers in a [`Pending`] on the way, so that the sink is called once for
//! some thousand bytes.

ghost use Rattle.std.specs.Prelude.{◌≡◌, ◌+◌, ◌≤◌, [], length};
ghost use Rattle.road_io.specs.declared.buffers.TheConstants.{MOST_PENDING};
ghost use Rattle.road_text.specs.Pieces.{put_of, Appends};
ghost use Rattle.certificate_text.specs.declared.heads.TheConstants.{HEAD_ROOM};
ghost use Rattle.certificate_text.specs.Texts.{Optimum, Route, Row, Via, certificate_text, numbers_text, spaced};
ghost use Rattle.certificate_text.specs.Parts.{block_text, blocks_text, finding_text, reason_detour, routes_text, rows_text, tail_text, text_of, vias_text, whole_line};
ghost use Rattle.certificate_text.specs.Putting.{PutsOn};

use crate::certificate::{Block, BlockRow, CertRoute, Certificate, Finding, Reason, ViaRow};
use crate::heads::{
    HEAD_ROOM, push_block_head, push_first, push_optimum_head, push_route_head, push_row,
    push_spaced, push_via_head,
};
use road_io::{Pending, Put, Sink};
use road_text::SinkFailed;

/// Sends what is pending where the next part of a line might find no room.
fn make_room<K: Sink>(sink: &mut K, text: &mut Pending) -> Result<(), SinkFailed>
    ensures room { text.new.used + HEAD_ROOM ≤ MOST_PENDING }
    ensures sent { PutsOn K.written K.faults [] text.old text.new sink.old sink.new (put_of result) }
{
    match text.make_room(sink, HEAD_ROOM) {
        Put::Done => Ok(()),
        Put::Failed => Err(SinkFailed),
    }
}

/// Writes a short piece.
fn put_word<K: Sink>(sink: &mut K, text: &mut Pending, word: &[u8]) -> Result<(), SinkFailed>
    requires { length word.now ≤ HEAD_ROOM }
    ensures { PutsOn K.written K.faults word.now text.old text.new sink.old sink.new (put_of result) }
{
    make_room(sink, text)?;
    text.push(word);
    Ok(())
}

/// Writes a number after a space.
fn put_spaced<K: Sink>(sink: &mut K, text: &mut Pending, number: u64) -> Result<(), SinkFailed>
    ensures { PutsOn K.written K.faults (spaced number) text.old text.new sink.old sink.new (put_of result) }
{
    make_room(sink, text)?;
    push_spaced(text, number);
    Ok(())
}

/// Writes numbers, each after a space.
fn put_numbers<K: Sink>(sink: &mut K, text: &mut Pending, numbers: &[u64]) -> Result<(), SinkFailed>
    ensures { PutsOn K.written K.faults (numbers_text numbers.now)
        text.old text.new sink.old sink.new (put_of result) }
{
    for number in numbers {
        put_spaced(sink, text, *number)?;
    }
    Ok(())
}

/// Writes the numbers that end a line, and its line feed.
fn put_tail<K: Sink>(sink: &mut K, text: &mut Pending, numbers: &[u64]) -> Result<(), SinkFailed>
    ensures { PutsOn K.written K.faults (tail_text numbers.now)
        text.old text.new sink.old sink.new (put_of result) }
{
    put_numbers(sink, text, numbers)?;
    put_word(sink, text, b"\n")
}

fn put_row<K: Sink>(sink: &mut K, text: &mut Pending, row: &BlockRow) -> Result<(), SinkFailed>
    ensures { PutsOn K.written K.faults (whole_line (Row row.now))
        text.old text.new sink.old sink.new (put_of result) }
{
    make_room(sink, text)?;
    push_row(text, row);
    Ok(())
}

fn put_rows<K: Sink>(sink: &mut K, text: &mut Pending, rows: &[BlockRow]) -> Result<(), SinkFailed>
    ensures { PutsOn K.written K.faults (rows_text rows.now)
        text.old text.new sink.old sink.new (put_of result) }
{
    for row in rows {
        put_row(sink, text, row)?;
    }
    Ok(())
}

/// Writes the lines of a block.
fn put_block<K: Sink>(sink: &mut K, text: &mut Pending, block: &Block) -> Result<(), SinkFailed>
    ensures { PutsOn K.written K.faults (block_text block.now)
        text.old text.new sink.old sink.new (put_of result) }
{
    make_room(sink, text)?;
    push_block_head(text, block);
    put_rows(sink, text, block.rows.as_slice())?;
    put_word(sink, text, b"end\n")
}

fn put_blocks<K: Sink>(sink: &mut K, text: &mut Pending, blocks: &[Block]) -> Result<(), SinkFailed>
    ensures { PutsOn K.written K.faults (blocks_text blocks.now)
        text.old text.new sink.old sink.new (put_of result) }
{
    for block in blocks {
        put_block(sink, text, block)?;
    }
    Ok(())
}

/// Writes the line of an optimum.
fn put_optimum<K: Sink>(
    sink: &mut K,
    text: &mut Pending,
    length: u64,
    arcs: &[u64],
) -> Result<(), SinkFailed>
    ensures { PutsOn K.written K.faults (whole_line (Optimum length arcs.now))
        text.old text.new sink.old sink.new (put_of result) }
{
    make_room(sink, text)?;
    push_optimum_head(text, length);
    put_tail(sink, text, arcs)
}

/// Writes the line of an alternative.
fn put_route<K: Sink>(sink: &mut K, text: &mut Pending, route: &CertRoute) -> Result<(), SinkFailed>
    ensures { PutsOn K.written K.faults (whole_line (Route route.now))
        text.old text.new sink.old sink.new (put_of result) }
{
    make_room(sink, text)?;
    push_route_head(text, route);
    put_tail(sink, text, route.arcs.as_slice())
}

fn put_routes<K: Sink>(
    sink: &mut K,
    text: &mut Pending,
    routes: &[CertRoute],
) -> Result<(), SinkFailed>
    ensures { PutsOn K.written K.faults (routes_text routes.now)
        text.old text.new sink.old sink.new (put_of result) }
{
    for route in routes {
        put_route(sink, text, route)?;
    }
    Ok(())
}

/// The detour of a reason, which is empty where the reason has none.
fn detour(reason: &Reason) -> &[u64]
    ensures { result.now ≡ reason_detour reason.now }
{
    match reason {
        Reason::Local { detour, .. } => detour.as_slice(),
        Reason::Stretch { detour, .. } => detour.as_slice(),
        _ => &[],
    }
}

/// Writes the line of a vertex near enough to both ends.
fn put_via<K: Sink>(sink: &mut K, text: &mut Pending, via: &ViaRow) -> Result<(), SinkFailed>
    ensures { PutsOn K.written K.faults (whole_line (Via via.now))
        text.old text.new sink.old sink.new (put_of result) }
{
    make_room(sink, text)?;
    push_via_head(text, via);
    put_tail(sink, text, detour(&via.reason))
}

fn put_vias<K: Sink>(sink: &mut K, text: &mut Pending, vias: &[ViaRow]) -> Result<(), SinkFailed>
    ensures { PutsOn K.written K.faults (vias_text vias.now)
        text.old text.new sink.old sink.new (put_of result) }
{
    for via in vias {
        put_via(sink, text, via)?;
    }
    Ok(())
}

/// Writes the lines of what was found.
fn put_finding<K: Sink>(
    sink: &mut K,
    text: &mut Pending,
    finding: &Finding,
) -> Result<(), SinkFailed>
    ensures { PutsOn K.written K.faults (finding_text finding.now)
        text.old text.new sink.old sink.new (put_of result) }
{
    match finding {
        Finding::Nothing => put_word(sink, text, b"none\n"),
        Finding::Found {
            length,
            arcs,
            routes,
            vias,
        } => {
            put_optimum(sink, text, *length, arcs.as_slice())?;
            put_routes(sink, text, routes.as_slice())?;
            put_vias(sink, text, vias.as_slice())
        }
    }
}

/// Writes all lines, of which the last may still be pending.
fn put_lines<K: Sink>(
    sink: &mut K,
    text: &mut Pending,
    certificate: &Certificate,
) -> Result<(), SinkFailed>
    requires { text.old.used ≡ 0 }
    ensures { PutsOn K.written K.faults (text_of certificate.now)
        text.old text.new sink.old sink.new (put_of result) }
{
    push_first(text, certificate);
    put_blocks(sink, text, certificate.blocks.as_slice())?;
    put_finding(sink, text, &certificate.finding)?;
    put_word(sink, text, b"done\n")
}

/// Writes the text of a certificate. After `Failed` a prefix of it is written.
///
/// It takes no memory, writes each line once, and calls the sink with pieces of up to 8 KB.
pub fn put_certificate<K: Sink>(sink: &mut K, certificate: &Certificate) -> Put
    ensures { Appends K.written K.faults (certificate_text certificate.now) sink.old sink.new result }
{
    let mut text = Pending::new();
    match put_lines(sink, &mut text, certificate) {
        Ok(()) => text.send(sink),
        Err(SinkFailed) => Put::Failed,
    }
}
