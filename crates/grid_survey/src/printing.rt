//! A summary as text.

ghost use Rattle.std.specs.Prelude.{◌≡◌, ◌++◌, decimal};
ghost use Rattle.road_text.specs.Pieces.{put_of, Appends};
ghost use Rattle.grid_survey.specs.Summary.{summary_line, summary_text};

use crate::Summary;
use road_io::Sink;
use road_text::{SinkFailed, put, put_numbered, put_wide_number};

/// Writes a line of two numbers, each after its words.
fn put_line<K: Sink>(
    sink: &mut K,
    words: &[u8],
    number: u64,
    more_words: &[u8],
    other_number: u128,
) -> Result<(), SinkFailed>
    ensures { Appends K.written K.faults
        (summary_line (words.now ++ decimal number ++ more_words.now ++ decimal other_number))
        sink.old sink.new (put_of result) }
{
    put_numbered(sink, words, number)?;
    put(sink, more_words)?;
    put_wide_number(sink, other_number)?;
    put(sink, b"\n")
}

/// Writes the four lines of a summary: the graph's vertices and arcs, the queries and how many of them have no path,
/// the paths and the sum of their lengths, and `end`.
pub fn put_summary<K: Sink>(sink: &mut K, summary: &Summary) -> Result<(), SinkFailed>
    ensures { Appends K.written K.faults (summary_text summary.now) sink.old sink.new (put_of result) }
{
    let Summary {
        vertices,
        arcs,
        queries,
        without_path,
        routes,
        length,
    } = *summary;
    put_line(
        sink,
        b"graph vertices ",
        u64::from(vertices),
        b" arcs ",
        u128::from(arcs),
    )?;
    put_line(
        sink,
        b"queries ",
        u64::from(queries),
        b" none ",
        u128::from(without_path),
    )?;
    put_line(sink, b"routes ", routes, b" length ", length)?;
    put(sink, b"end\n")
}
