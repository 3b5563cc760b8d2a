//! A certificate out of a source.

ghost use Rattle.std.specs.Prelude.{◌≡◌, ◌≢◌, ℕ, List, Err, ◌+◌, ◌<◌, ◌≤◌, ◌^◌, ◌++◌, IfOk};
ghost use Rattle.road_io.specs.Told.{IfTold};
ghost use Rattle.road_io.specs.Count.{HasRisen};
ghost use Rattle.certificate_text.specs.declared.raw_lines.RawLines.{RawLines};
ghost use Rattle.certificate_text.specs.RawLines.{held, budget, Steps, IsAtEnd};
ghost use Rattle.certificate_text.specs.Words.{Gives};
ghost use Rattle.certificate_text.specs.Order.{step_raw};
ghost use Rattle.certificate_text.specs.Reading.{Reads};
ghost use Rattle.certificate_text.specs.Gathering.{IsOpen, IsMore, IsSorted, Gathers, GathersOn};

use crate::certificate::Certificate;
use crate::fault::{CertError, CertFault, CertKind};
use crate::line::Refusal;
use crate::order::{Progress, step};
use crate::raw_lines::{Fill, RawLines, Step};
use crate::words::line_of;
use road_io::Source;
use std::alloc::Global;

/// The fault of this kind at the line after so many.
fn refused(count: u64, kind: CertKind) -> CertError
    requires { count < 2 ^ 63 }
    ensures { result ≡ CertError.Refused (record { line = count + 1; kind = kind }) }
{
    CertError::Refused(CertFault {
        line: count + 1,
        kind,
    })
}

/// Takes one raw line, after so many lines.
fn take(alloc: Global, raw: &[u8], progress: Progress) -> Result<Progress, Refusal>
    ensures { Gives (λ p. p) result (step_raw progress raw.now) }
{
    match line_of(alloc, raw) {
        Ok(said) => step(alloc, progress, said),
        Err(refusal) => Err(refusal),
    }
}

/// Whether more lines may come.
#[derive(Drop)]
enum Gathered {
    More(Progress),
    All(Certificate),
}

/// The progress, by whether more lines may come.
fn sort(progress: Progress) -> Gathered
    ensures { IsSorted progress result }
{
    match progress {
        Progress::Whole(certificate) => Gathered::All(certificate),
        other => Gathered::More(other),
    }
}

/// Takes what one step of the reader came to, after so many lines.
fn gather(
    alloc: Global,
    lines: &RawLines,
    advance: Step,
    progress: Progress,
    count: u64,
) -> Result<Gathered, CertError>
    requires open { IsOpen progress }
    requires few { count < 2 ^ 63 }
    ensures goes_on { IfOk result (λ _. advance ≡ Step.Line) }
    ensures open { IfOk result IsMore }
    ensures failed { result ≡ Err CertError.ReadFault → advance ≡ Step.Failed }
    ensures told { advance ≡ Step.Failed → result ≡ Err CertError.ReadFault }
    ensures gathered { (old : RawLines) (text rest after : List ℕ)
        → Gathers (budget old) text (held old ++ rest) progress count
        → Steps old lines.now (held old ++ rest) after advance
        → GathersOn lines.now text after (count + 1) result }
{
    match advance {
        Step::Line => match take(alloc, lines.line(), progress) {
            Ok(next) => Ok(sort(next)),
            Err(Refusal::Wrong) => Err(refused(count, CertKind::Syntax)),
            Err(Refusal::NoMemory) => Err(CertError::NoMemory),
        },
        Step::End => Err(refused(count, CertKind::Truncated)),
        Step::Spent => Err(refused(count, CertKind::Long)),
        Step::Failed => Err(CertError::ReadFault),
        Step::NoMemory => Err(CertError::NoMemory),
    }
}

/// The certificate after its last line, where no byte follows.
fn finish<S: Source>(
    lines: &mut RawLines,
    source: &mut S,
    certificate: Certificate,
    count: u64,
) -> Result<Certificate, CertError>
    requires few { count < 2 ^ 63 }
    ensures reads { IfTold (S.left source.old) (S.left source.new)
        (λ rest after. (text : List ℕ)
        → Gathers (budget lines.old) text (held lines.old ++ rest) (Progress.Whole certificate) count
        → Reads text after result) }
    ensures count { S.faults source.old ≤ S.faults source.new }
    ensures cause { result ≡ Err CertError.ReadFault
        → HasRisen (S.faults source.old) (S.faults source.new) }
    ensures quiet { result ≢ Err CertError.ReadFault → S.faults source.new ≡ S.faults source.old }
    ensures unpicked { S.picked source.new ≡ S.picked source.old }
{
    match lines.look(source) {
        Fill::More => Err(refused(count, CertKind::Syntax)),
        Fill::End => Ok(certificate),
        Fill::Spent => Err(refused(count, CertKind::Syntax)),
        Fill::Failed => Err(CertError::ReadFault),
    }
}

/// Reads a certificate to its end, or to its first fault.
///
/// It keeps 64 KB, the line that it reads and the certificate so far, and takes time linear in the text. A number
/// of more than 19 digits is a fault, and so is one with a needless zero before it. `ReadFault` comes where a read
/// failed and no line that was read whole before it has a fault, and only there; what was read by then is lost.
pub fn read_certificate<S: Source>(alloc: Global, source: &mut S) -> Result<Certificate, CertError>
    ensures reads { IfTold (S.left source.old) (S.left source.new)
        (λ text rest. Reads text rest result) }
    ensures count { S.faults source.old ≤ S.faults source.new }
    ensures cause { result ≡ Err CertError.ReadFault
        → HasRisen (S.faults source.old) (S.faults source.new) }
    ensures quiet { result ≢ Err CertError.ReadFault → S.faults source.new ≡ S.faults source.old }
    ensures unpicked { S.picked source.new ≡ S.picked source.old }
{
    let mut lines = RawLines::new(alloc)?;
    let mut progress = Progress::Start;
    let mut count: u64 = 0;
    'lines: loop {
        let advance = lines.advance(source);
        match gather(alloc, &lines, advance, progress, count) {
            Ok(Gathered::More(next)) => progress = next,
            Ok(Gathered::All(certificate)) => {
                return finish(&mut lines, source, certificate, count + 1);
            }
            Err(error) => return Err(error),
        }
        count += 1;
    }
}
