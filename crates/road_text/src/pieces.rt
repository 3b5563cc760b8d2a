//! Texts piece by piece: bytes, and numbers by their digits.
//!
//! What begins with `put` writes to a sink, and may fail; what begins with `push` puts into a [`Pending`], which has
//! room.

ghost use Rattle.std.specs.Prelude.{◌≡◌, ◌+◌, ◌≤◌, ◌++◌, decimal, length};
ghost use Rattle.road_io.specs.Buffers.{pending};
ghost use Rattle.road_io.specs.declared.buffers.TheConstants.{MOST_PENDING};
ghost use Rattle.road_text.specs.Pieces.{put_of, Appends};

use itoa::{Buffer, Integer};
use road_io::{Pending, Put, Sink};

/// A write to the sink failed.
#[derive(Clone, Copy, Debug, PartialEq, Eq)]
pub struct SinkFailed;

/// The digits of a number.
fn digits<I: Integer>(buffer: &mut Buffer, number: I) -> &[u8]
    ensures text { result.now ≡ I.text number }
    ensures fits { length result.now ≤ I.MAX_STR_LEN }
{
    buffer.format(number).as_bytes()
}

/// Writes a piece.
pub fn put<K: Sink>(sink: &mut K, piece: &[u8]) -> Result<(), SinkFailed>
    ensures { Appends K.written K.faults piece.now sink.old sink.new (put_of result) }
{
    match sink.write(piece) {
        Put::Done => Ok(()),
        Put::Failed => Err(SinkFailed),
    }
}

/// Writes the digits of a number.
pub fn put_number<K: Sink>(sink: &mut K, number: u64) -> Result<(), SinkFailed>
    ensures { Appends K.written K.faults (decimal number) sink.old sink.new (put_of result) }
{
    let mut buffer = Buffer::new();
    put(sink, digits(&mut buffer, number))
}

/// Writes the digits of a number of up to 128 bits.
pub fn put_wide_number<K: Sink>(sink: &mut K, number: u128) -> Result<(), SinkFailed>
    ensures { Appends K.written K.faults (decimal number) sink.old sink.new (put_of result) }
{
    let mut buffer = Buffer::new();
    put(sink, digits(&mut buffer, number))
}

/// Writes a word with a number after it.
pub fn put_numbered<K: Sink>(sink: &mut K, word: &[u8], number: u64) -> Result<(), SinkFailed>
    ensures { Appends K.written K.faults (word.now ++ decimal number) sink.old sink.new (put_of result) }
{
    put(sink, word)?;
    put_number(sink, number)
}

/// Puts the digits of a number, at most 20 of them, after what is pending.
pub fn push_number(text: &mut Pending, number: u64)
    requires { text.old.used + 20 ≤ MOST_PENDING }
    ensures text { pending text.new ≡ pending text.old ++ decimal number }
    ensures used { text.new.used ≤ text.old.used + 20 }
{
    let mut buffer = Buffer::new();
    text.push(digits(&mut buffer, number));
}
