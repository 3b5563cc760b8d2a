//! Cursors as texts.

ghost use Rattle.std.specs.Prelude.{◌≡◌, ◌∷◌, MatchOption, decimal};
ghost use Rattle.std.specs.List.{flat_map};
ghost use Rattle.road_text.specs.Pieces.{put_of, Appends};
ghost use Rattle.route_ranking.specs.Cursors.{cursor_of, cursor_text, cursor_with};

use road_io::Sink;
use road_model::{Cursor, CursorQuery};
use road_text::{SinkFailed, canonical_number, put_number, put_numbered};

/// How many numbers a cursor has.
const NUMBERS: usize = 11;

/// The cursor that a text is: eleven canonical numbers of at most 19 digits with a dot between each two, and
/// nothing else. Takes no memory.
pub fn read_cursor(text: &[u8]) -> Option<Cursor>
    ensures { result ≡ cursor_of text.now }
{
    let [
        version,
        from,
        to,
        gamma,
        gamma_den,
        alpha,
        alpha_den,
        epsilon,
        epsilon_den,
        size,
        offset,
    ] = read_numbers(text)?;
    let query = CursorQuery {
        from,
        to,
        gamma: (gamma, gamma_den),
        alpha: (alpha, alpha_den),
        epsilon: (epsilon, epsilon_den),
    };
    Some(Cursor {
        version,
        query,
        size,
        offset,
    })
}

/// The numbers of the text's fields, where they are as many as a cursor has.
fn read_numbers(text: &[u8]) -> Option<[u64; NUMBERS]>
    ensures { MatchOption result (cursor_of text.now ≡ None)
        (λ numbers. cursor_of text.now ≡ Some (cursor_with numbers)) }
{
    let mut numbers = [0; NUMBERS];
    let mut count = 0;
    for field in text.split(|byte| *byte == b'.') {
        if count == NUMBERS {
            return None;
        }
        numbers[count] = canonical_number(field)?;
        count += 1;
    }
    if count < NUMBERS { None } else { Some(numbers) }
}

/// Writes the text of a cursor, which [`read_cursor`] reads as that cursor where each of its numbers is below 10^19.
///
/// It writes some twenty small pieces, and takes no memory. Where it fails a prefix of the text is written.
pub fn write_cursor<K: Sink>(sink: &mut K, cursor: &Cursor) -> Result<(), SinkFailed>
    ensures { Appends K.written K.faults (cursor_text cursor.now) sink.old sink.new (put_of result) }
{
    let query = &cursor.query;
    let others = [
        query.from,
        query.to,
        query.gamma.0,
        query.gamma.1,
        query.alpha.0,
        query.alpha.1,
        query.epsilon.0,
        query.epsilon.1,
        cursor.size,
        cursor.offset,
    ];
    put_number(sink, cursor.version)?;
    put_dotted(sink, &others)
}

/// Writes numbers, each after a dot.
fn put_dotted<K: Sink>(sink: &mut K, numbers: &[u64]) -> Result<(), SinkFailed>
    ensures { Appends K.written K.faults (flat_map (λ n. 46 ∷ decimal n) numbers.now)
        sink.old sink.new (put_of result) }
{
    for number in numbers {
        put_numbered(sink, b".", *number)?;
    }
    Ok(())
}
