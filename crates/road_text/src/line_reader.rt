//! Lines out of any source, one at a time, in bounded memory.

ghost use Rattle.std.specs.Prelude.{◌≡◌, ◌≢◌, true, false, ◌+◌, ◌-◌, ◌<◌, ◌≤◌, ◌++◌, [], length, take, IfOk, OnOk, vec_len, slice_index, slice_range, MatchOption};
ghost use Rattle.road_io.specs.Told.{IfTold};
ghost use Rattle.road_io.specs.Count.{HasRisen};
ghost use Rattle.road_io.specs.Source.{Reads};
ghost use Rattle.road_text.specs.Lines.{HasNoFeed};
ghost use Rattle.road_text.specs.Fields.{first_byte, or_first};
ghost use Rattle.road_text.specs.declared.line_reader.TheConstants.{ROOM, MOST_KEPT};

use crate::feeds::{find_feed, line_len};
use crate::fields::first_byte;
use road_io::{Read, Source};
use std::alloc::{AllocError, Global};

/// The longest line that a reader can be asked to keep.
pub const MOST_KEPT: usize = 32768;

/// How many bytes a reader keeps: room for a read of at least 64 KB after a line that isn't whole.
const ROOM: usize = 131072;

/// What one step of a reader came to.
#[derive(Clone, Copy, Debug, PartialEq, Eq)]
pub enum Advance {
    /// The next line is shown, and its line feed was read.
    Whole,
    /// The last line is shown, which has no line feed. Nothing follows.
    Last,
    /// A line went by that is longer than the reader keeps.
    Long {
        /// Whether its line feed was read; else it was the last line.
        whole: bool,
        /// Its first byte that isn't blank.
        first: Option<u8>,
    },
    /// No line is left.
    End,
    /// The source has a byte more than the reader allows, and no line ended before it.
    Spent,
    /// A read of the source failed. Nothing of the line that it was in counts.
    Failed,
}

/// What one try to read more came to.
#[derive(Clone, Copy, Debug, PartialEq, Eq)]
enum Fill {
    More,
    End,
    Spent,
    Failed,
}

/// Reads a source by large pieces, and shows it line by line.
///
/// It keeps 128 KB, whatever the lengths of lines. Before each read it moves the bytes that it holds
/// of a line, at most one more than a line that is shown may have, to the front of its buffer. A
/// source that gives large pieces has few bytes moved.
#[derive(Drop)]
pub struct LineReader {
    buffer: Vec<u8>,
    start: usize,
    end: usize,
    line_start: usize,
    line_end: usize,
    taken: u64,
    longest: usize,
    most: u64,
    ghost ordered: { start ≤ end },
    ghost inside: { end ≤ ROOM },
    ghost line_ordered: { line_start ≤ line_end },
    ghost line_inside: { line_end ≤ ROOM },
    ghost counted: { end - start ≤ taken },
    ghost allowed: { taken ≤ most },
    ghost room: { vec_len buffer ≡ ROOM },
    ghost keeps: { longest ≤ MOST_KEPT },
}

impl LineReader {
    ghost use Rattle.road_text.specs.Reader.{held, line_of, budget, limit_of, IsFreshReader, IsLine, HasTaken, Steps, GoesOn, IsShown};
    ghost use Rattle.road_text.specs.Filling.{IsFeedAt, IsSameStock, HandsOut, IsKept, Grows, GivesFill, Finishes};

    /// A reader that shows lines of up to `longest` bytes, their ends not counted, and lets its
    /// source have up to `most` bytes. It takes its memory here and none later.
    pub fn new(alloc: Global, longest: usize, most: u64) -> Result<LineReader, AllocError>
        requires { longest ≤ MOST_KEPT }
        ensures { IfOk result (λ reader. IsFreshReader reader longest most) }
    {
        let buffer = vec![in alloc; 0u8; ROOM]?;
        Ok(LineReader {
            buffer,
            start: 0,
            end: 0,
            line_start: 0,
            line_end: 0,
            taken: 0,
            longest,
            most,
        })
    }

    /// The line that the last step showed, without its end.
    pub fn line(&self) -> &[u8]
        ensures { result.now ≡ line_of self.now }
    {
        &self.buffer[self.line_start..self.line_end]
    }

    /// Shows the raw line at these places of the buffer, or says that it is too long.
    fn hand_out(&mut self, from: usize, size: usize, whole: bool) -> Advance
        requires { from + size ≤ vec_len self.old.buffer }
        ensures stock { IsSameStock self.old self.new }
        ensures handed { HandsOut self.old self.new
            (slice_range self.old.buffer.items from (from + size)) whole result }
    {
        let raw = &self.buffer[from..from + size];
        let len = line_len(raw);
        if len > self.longest {
            let first = first_byte(raw);
            return Advance::Long { whole, first };
        }
        self.line_start = from;
        self.line_end = from + len;
        if whole { Advance::Whole } else { Advance::Last }
    }

    /// Hands out the next raw line, whose line feed stands after `size` of the held bytes.
    fn whole(&mut self, size: usize) -> Advance
        requires { IsFeedAt (held self.old) size }
        ensures line { IsLine (held self.old) (take size (held self.old)) (held self.new) }
        ensures taken { HasTaken self.old self.new (size + 1) }
        ensures handed { HandsOut self.old self.new (take size (held self.old)) true result }
    {
        let from = self.start;
        self.start = from + size + 1;
        self.hand_out(from, size, true)
    }

    /// Hands out the held bytes as the last line.
    fn last(&mut self) -> Advance
        requires some { 0 < length (held self.old) }
        requires no_feed { HasNoFeed (held self.old) }
        ensures empty { held self.new ≡ [] }
        ensures taken { HasTaken self.old self.new (length (held self.old)) }
        ensures handed { HandsOut self.old self.new (held self.old) false result }
    {
        let from = self.start;
        let size = self.end - from;
        self.start = self.end;
        self.hand_out(from, size, false)
    }

    /// Moves the held bytes to the front of the buffer.
    fn to_front(&mut self)
        ensures held { held self.new ≡ held self.old }
        ensures prefix { self.new.start ≡ 0 }
        ensures taken { self.new.taken ≡ self.old.taken }
        ensures kept { IsKept self.old self.new }
    {
        self.buffer.copy_within(self.start..self.end, 0);
        self.end -= self.start;
        self.start = 0;
    }

    /// Reads more after the held bytes, which stand at the front of the buffer.
    fn pull<S: Source>(&mut self, source: &mut S) -> Fill
        requires prefix { self.old.start ≡ 0 }
        requires room { self.old.end < ROOM }
        requires budget { self.old.taken < self.old.most }
        ensures kept { IsKept self.old self.new }
        ensures grows { Grows self.old self.new result }
        ensures told { IfTold (S.left source.old) (S.left source.new)
            (λ before after. GivesFill self.old self.new before after result) }
        ensures count { S.faults source.old ≤ S.faults source.new }
        ensures cause { result ≡ Fill.Failed
            → HasRisen (S.faults source.old) (S.faults source.new) }
        ensures quiet { result ≢ Fill.Failed → S.faults source.new ≡ S.faults source.old }
        ensures unpicked { S.picked source.new ≡ S.picked source.old }
    {
        let from = self.end;
        let room = ((ROOM - from) as u64).min(self.most - self.taken) as usize;
        match read_into(source, self.buffer.as_mut_slice(), from, from + room) {
            Read::Took(size) => {
                self.end = from + size;
                self.taken += size as u64;
                Fill::More
            }
            Read::End => Fill::End,
            Read::Failed => Fill::Failed,
        }
    }

    /// Asks for one byte where the source has given all that the reader allows.
    fn probe<S: Source>(&self, source: &mut S) -> Fill
        requires { self.now.taken ≡ self.now.most }
        ensures same { Grows self.now self.now result }
        ensures told { IfTold (S.left source.old) (S.left source.new)
            (λ before after. GivesFill self.now self.now before after result) }
        ensures count { S.faults source.old ≤ S.faults source.new }
        ensures cause { result ≡ Fill.Failed
            → HasRisen (S.faults source.old) (S.faults source.new) }
        ensures quiet { result ≢ Fill.Failed → S.faults source.new ≡ S.faults source.old }
        ensures unpicked { S.picked source.new ≡ S.picked source.old }
    {
        let mut room = [0u8; 1];
        match source.read(&mut room) {
            Read::Took(_) => Fill::Spent,
            Read::End => Fill::End,
            Read::Failed => Fill::Failed,
        }
    }

    /// Tries to read more after the held bytes.
    fn fill<S: Source>(&mut self, source: &mut S) -> Fill
        requires { length (held self.old) ≤ self.old.longest + 1 }
        ensures kept { IsKept self.old self.new }
        ensures grows { Grows self.old self.new result }
        ensures told { IfTold (S.left source.old) (S.left source.new)
            (λ before after. GivesFill self.old self.new before after result) }
        ensures count { S.faults source.old ≤ S.faults source.new }
        ensures cause { result ≡ Fill.Failed
            → HasRisen (S.faults source.old) (S.faults source.new) }
        ensures quiet { result ≢ Fill.Failed → S.faults source.new ≡ S.faults source.old }
        ensures unpicked { S.picked source.new ≡ S.picked source.old }
    {
        self.to_front();
        if self.taken == self.most {
            self.probe(source)
        } else {
            self.pull(source)
        }
    }

    /// Passes over the held bytes.
    fn forget(&mut self)
        ensures empty { held self.new ≡ [] }
        ensures taken { HasTaken self.old self.new (length (held self.old)) }
    {
        self.start = self.end;
    }

    /// Goes to the end of a line that is too long, of which all held bytes are.
    fn skip<S: Source>(&mut self, source: &mut S) -> Advance
        requires no_feed { HasNoFeed (held self.old) }
        requires long { self.old.longest + 1 < length (held self.old) }
        ensures steps { IfTold (S.left source.old) (S.left source.new)
            (λ rest after. Steps self.old self.new (held self.old ++ rest) after result) }
        ensures falls { GoesOn result → budget self.new < budget self.old }
        ensures limit { limit_of self.new ≡ limit_of self.old }
        ensures short { IsShown result → length (line_of self.new) ≤ limit_of self.new }
        ensures count { S.faults source.old ≤ S.faults source.new }
        ensures cause { result ≡ Advance.Failed
            → HasRisen (S.faults source.old) (S.faults source.new) }
        ensures quiet { result ≢ Advance.Failed → S.faults source.new ≡ S.faults source.old }
        ensures unpicked { S.picked source.new ≡ S.picked source.old }
    {
        let mut first = first_byte(&self.buffer[self.start..self.end]);
        self.forget();
        'pieces: loop {
            match self.fill(source) {
                Fill::More => {}
                Fill::End => return Advance::Long {
                    whole: false,
                    first,
                },
                Fill::Spent => return Advance::Spent,
                Fill::Failed => return Advance::Failed,
            }
            let piece = &self.buffer[self.start..self.end];
            match find_feed(piece, 0) {
                Some(size) => {
                    first = first_of(first, &piece[..size]);
                    self.start += size + 1;
                    return Advance::Long { whole: true, first };
                }
                None => {
                    first = first_of(first, piece);
                    self.forget();
                }
            }
        }
    }

    /// Goes on to the next line.
    ///
    /// After `Last`, `End`, `Spent` and `Failed` nothing is owed of further steps. A step takes no memory,
    /// and time linear in the bytes that it passes over and, for each read that it makes, in those that
    /// it holds of the line by then.
    pub fn advance<S: Source>(&mut self, source: &mut S) -> Advance
        ensures steps { IfTold (S.left source.old) (S.left source.new)
            (λ rest after. Steps self.old self.new (held self.old ++ rest) after result) }
        // A caller's loop ends, since its lines take up what the source may give.
        ensures falls { GoesOn result → budget self.new < budget self.old }
        ensures limit { limit_of self.new ≡ limit_of self.old }
        ensures short { IsShown result → length (line_of self.new) ≤ limit_of self.new }
        ensures count { S.faults source.old ≤ S.faults source.new }
        ensures cause { result ≡ Advance.Failed
            → HasRisen (S.faults source.old) (S.faults source.new) }
        ensures quiet { result ≢ Advance.Failed → S.faults source.new ≡ S.faults source.old }
        ensures unpicked { S.picked source.new ≡ S.picked source.old }
    {
        let mut seen = 0;
        'pieces: loop {
            if let Some(size) = find_feed(&self.buffer[self.start..self.end], seen) {
                return self.whole(size);
            }
            seen = self.end - self.start;
            if seen > self.longest + 1 {
                return self.skip(source);
            }
            match self.fill(source) {
                Fill::More => {}
                Fill::End => return self.finish(),
                Fill::Spent => return Advance::Spent,
                Fill::Failed => return Advance::Failed,
            }
        }
    }

    /// Hands out the held bytes at the source's end.
    fn finish(&mut self) -> Advance
        requires { HasNoFeed (held self.old) }
        ensures { Finishes self.old self.new result }
    {
        if self.start == self.end {
            Advance::End
        } else {
            self.last()
        }
    }
}

/// The first byte that isn't blank of a line that began before and goes on with these bytes.
fn first_of(first: Option<u8>, bytes: &[u8]) -> Option<u8>
    ensures { result ≡ or_first first (first_byte bytes.now) }
{
    match first {
        Some(byte) => Some(byte),
        None => first_byte(bytes),
    }
}

/// Reads the source into a part of the buffer.
fn read_into<S: Source>(source: &mut S, buffer: &mut [u8], from: usize, to: usize) -> Read
    requires some { from < to }
    requires inside { to ≤ length buffer.old }
    ensures prefix { take from buffer.new ≡ take from buffer.old }
    ensures reads { Reads (slice_range buffer.new from to)
        (S.left source.old) (S.left source.new) result }
    ensures count { S.faults source.old ≤ S.faults source.new }
    ensures cause { result ≡ Read.Failed → HasRisen (S.faults source.old) (S.faults source.new) }
    ensures quiet { result ≢ Read.Failed → S.faults source.new ≡ S.faults source.old }
    ensures unpicked { S.picked source.new ≡ S.picked source.old }
{
    source.read(&mut buffer[from..to])
}
