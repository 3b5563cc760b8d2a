//! Raw lines of any length out of a source, one at a time.

ghost use Rattle.std.specs.Prelude.{◌≡◌, ◌≢◌, ◌-◌, ◌<◌, ◌≤◌, ◌++◌, length, take, IfOk, vec_len, MatchOption};
ghost use Rattle.road_io.specs.Told.{IfTold};
ghost use Rattle.road_io.specs.Count.{HasRisen};
ghost use Rattle.road_io.specs.Source.{Reads};
ghost use Rattle.road_text.specs.Lines.{HasNoFeed};
ghost use Rattle.road_text.specs.Filling.{IsFeedAt};
ghost use Rattle.certificate_text.specs.declared.certificate.TheConstants.{MAX_CERTIFICATE};
ghost use Rattle.certificate_text.specs.declared.raw_lines.TheConstants.{ROOM};

use crate::certificate::MAX_CERTIFICATE;
use memchr::memchr;
use road_io::{Read, Source};
use std::alloc::{AllocError, Global};

/// How many bytes a reader takes at a time.
const ROOM: usize = 65536;

/// What one step of a reader came to.
#[derive(Clone, Copy, Debug, PartialEq, Eq)]
pub(crate) enum Step {
    /// The next line is handed out, and its line feed was read.
    Line,
    /// The source is at its end, and no line feed came before it.
    End,
    /// The source has a byte more than a certificate may have, and no line feed came before it.
    Spent,
    /// A read of the source failed.
    Failed,
    /// Memory was refused for the line.
    NoMemory,
}

/// What one try to read more came to.
#[derive(Clone, Copy, Debug, PartialEq, Eq)]
pub(crate) enum Fill {
    More,
    End,
    Spent,
    Failed,
}

/// How much of a line the held bytes had.
#[derive(Clone, Copy, Debug, PartialEq, Eq)]
enum Cut {
    /// Its end, with the line feed.
    Whole,
    /// Less than that, and they are all taken.
    Part,
    NoMemory,
}

/// Reads a source by large pieces, and hands it out raw line by raw line.
///
/// It keeps 64 KB and the line that it hands out, whose memory it uses again.
#[derive(Drop)]
pub(crate) struct RawLines {
    buffer: Vec<u8>,
    start: usize,
    end: usize,
    taken: u64,
    line: Vec<u8>,
    ghost ordered: { start ≤ end },
    ghost inside: { end ≤ ROOM },
    ghost counted: { end - start ≤ taken },
    ghost allowed: { taken ≤ MAX_CERTIFICATE },
    ghost room: { vec_len buffer ≡ ROOM },
}

impl RawLines {
    ghost use Rattle.certificate_text.specs.RawLines.{held, raw_of, budget, IsFreshReader, Cuts, Grows, GivesFill, Steps, IsAtEnd};

    /// A reader at the beginning of its source.
    pub(crate) fn new(alloc: Global) -> Result<RawLines, AllocError>
        ensures { IfOk result IsFreshReader }
    {
        let buffer = vec![in alloc; 0u8; ROOM]?;
        Ok(RawLines {
            buffer,
            start: 0,
            end: 0,
            taken: 0,
            line: Vec::new(alloc),
        })
    }

    /// The line that the last step handed out, without its line feed.
    pub(crate) fn line(&self) -> &[u8]
        ensures { result.now ≡ raw_of self.now }
    {
        self.line.as_slice()
    }

    /// Puts the held bytes after the line, up to the first line feed.
    fn cut(&mut self) -> Cut
        ensures cuts { Cuts self.old self.new result }
    {
        let held = &self.buffer[self.start..self.end];
        match find_feed(held) {
            Some(size) => match self.line.extend_from_slice(&held[..size]) {
                Ok(()) => {
                    self.start += size + 1;
                    Cut::Whole
                }
                Err(_) => Cut::NoMemory,
            },
            None => match self.line.extend_from_slice(held) {
                Ok(()) => {
                    self.start = self.end;
                    Cut::Part
                }
                Err(_) => Cut::NoMemory,
            },
        }
    }

    /// Reads more where no byte is held.
    fn pull<S: Source>(&mut self, source: &mut S) -> Fill
        requires empty { self.old.start ≡ self.old.end }
        requires budget { self.old.taken < MAX_CERTIFICATE }
        ensures raw { raw_of self.new ≡ raw_of self.old }
        ensures budget { budget self.new ≡ budget self.old }
        ensures grows { Grows self.old self.new result }
        ensures told { IfTold (S.left source.old) (S.left source.new)
            (λ before after. GivesFill self.old self.new before after result) }
        ensures count { S.faults source.old ≤ S.faults source.new }
        ensures cause { result ≡ Fill.Failed
            → HasRisen (S.faults source.old) (S.faults source.new) }
        ensures quiet { result ≢ Fill.Failed → S.faults source.new ≡ S.faults source.old }
        ensures unpicked { S.picked source.new ≡ S.picked source.old }
    {
        let room = (ROOM as u64).min(MAX_CERTIFICATE - self.taken) as usize;
        match read_into(source, self.buffer.as_mut_slice(), room) {
            Read::Took(size) => {
                self.start = 0;
                self.end = size;
                self.taken += size as u64;
                Fill::More
            }
            Read::End => Fill::End,
            Read::Failed => Fill::Failed,
        }
    }

    /// Asks for one byte where the source has given all that a certificate may have.
    fn probe<S: Source>(&self, source: &mut S) -> Fill
        requires empty { self.now.start ≡ self.now.end }
        requires spent { self.now.taken ≡ MAX_CERTIFICATE }
        ensures grows { Grows self.now self.now result }
        ensures told { IfTold (S.left source.old) (S.left source.new)
            (λ before after. GivesFill self.now self.now before after result) }
        ensures count { S.faults source.old ≤ S.faults source.new }
        ensures cause { result ≡ Fill.Failed
            → HasRisen (S.faults source.old) (S.faults source.new) }
        ensures quiet { result ≢ Fill.Failed → S.faults source.new ≡ S.faults source.old }
        ensures unpicked { S.picked source.new ≡ S.picked source.old }
    {
        let mut room = [0u8; 1];
        match source.read(&mut room) {
            Read::Took(_) => Fill::Spent,
            Read::End => Fill::End,
            Read::Failed => Fill::Failed,
        }
    }

    /// Tries to read more where no byte is held.
    fn fill<S: Source>(&mut self, source: &mut S) -> Fill
        requires empty { self.old.start ≡ self.old.end }
        ensures raw { raw_of self.new ≡ raw_of self.old }
        ensures budget { budget self.new ≡ budget self.old }
        ensures grows { Grows self.old self.new result }
        ensures told { IfTold (S.left source.old) (S.left source.new)
            (λ before after. GivesFill self.old self.new before after result) }
        ensures count { S.faults source.old ≤ S.faults source.new }
        ensures cause { result ≡ Fill.Failed
            → HasRisen (S.faults source.old) (S.faults source.new) }
        ensures quiet { result ≢ Fill.Failed → S.faults source.new ≡ S.faults source.old }
        ensures unpicked { S.picked source.new ≡ S.picked source.old }
    {
        if self.taken == MAX_CERTIFICATE {
            self.probe(source)
        } else {
            self.pull(source)
        }
    }

    /// Goes on to the next line.
    ///
    /// After any answer but `Line` nothing is owed of further steps. A step takes time linear in the bytes that it
    /// passes over.
    pub(crate) fn advance<S: Source>(&mut self, source: &mut S) -> Step
        ensures steps { IfTold (S.left source.old) (S.left source.new)
            (λ rest after. Steps self.old self.new (held self.old ++ rest) after result) }
        // A caller's loop ends, since its lines take up what the source may give.
        ensures falls { result ≡ Step.Line → budget self.new < budget self.old }
        ensures count { S.faults source.old ≤ S.faults source.new }
        ensures cause { result ≡ Step.Failed
            → HasRisen (S.faults source.old) (S.faults source.new) }
        ensures quiet { result ≢ Step.Failed → S.faults source.new ≡ S.faults source.old }
        ensures unpicked { S.picked source.new ≡ S.picked source.old }
    {
        self.line.clear();
        'pieces: loop {
            match self.cut() {
                Cut::Whole => return Step::Line,
                Cut::Part => {}
                Cut::NoMemory => return Step::NoMemory,
            }
            match self.fill(source) {
                Fill::More => {}
                Fill::End => return Step::End,
                Fill::Spent => return Step::Spent,
                Fill::Failed => return Step::Failed,
            }
        }
    }

    /// Whether a byte is left after the lines that were handed out.
    pub(crate) fn look<S: Source>(&mut self, source: &mut S) -> Fill
        ensures told { IfTold (S.left source.old) (S.left source.new)
            (λ rest after. IsAtEnd (held self.old ++ rest) after result) }
        ensures count { S.faults source.old ≤ S.faults source.new }
        ensures cause { result ≡ Fill.Failed
            → HasRisen (S.faults source.old) (S.faults source.new) }
        ensures quiet { result ≢ Fill.Failed → S.faults source.new ≡ S.faults source.old }
        ensures unpicked { S.picked source.new ≡ S.picked source.old }
    {
        if self.start < self.end {
            return Fill::More;
        }
        self.fill(source)
    }
}

/// Where the first line feed stands.
fn find_feed(bytes: &[u8]) -> Option<usize>
    ensures { MatchOption result (HasNoFeed bytes.now) (IsFeedAt bytes.now) }
{
    memchr(b'\n', bytes)
}

/// Reads the source into the beginning of the buffer.
fn read_into<S: Source>(source: &mut S, buffer: &mut [u8], room: usize) -> Read
    requires some { 0 < room }
    requires inside { room ≤ length buffer.old }
    ensures reads { Reads (take room buffer.new) (S.left source.old) (S.left source.new) result }
    ensures count { S.faults source.old ≤ S.faults source.new }
    ensures cause { result ≡ Read.Failed → HasRisen (S.faults source.old) (S.faults source.new) }
    ensures quiet { result ≢ Read.Failed → S.faults source.new ≡ S.faults source.old }
    ensures unpicked { S.picked source.new ≡ S.picked source.old }
{
    source.read(&mut buffer[..room])
}
