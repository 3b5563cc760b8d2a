//! The request lines of an input, one at a time.

ghost use Rattle.std.specs.Prelude.{◌≡◌, ◌≢◌, ◌<◌, ◌≤◌, ◌++◌};
ghost use Rattle.road_io.specs.Told.{IfTold};
ghost use Rattle.road_io.specs.Count.{HasRisen};
ghost use Rattle.road_text.specs.Reader.{held, budget};
ghost use Rattle.route_server.specs.Input.{IsMore, Goes};

use line_front::{MAX_LINE, Parsed, Role, read_request};
use road_io::Source;
use road_model::ErrorKind;
use road_text::{Advance, LineReader};

/// The next of the lines of an input.
#[derive(Clone, Copy, Debug, PartialEq, Eq)]
pub enum NextLine {
    /// It asks this, and more lines may follow.
    More(Parsed),
    /// It asks this, and is the last.
    Last(Parsed),
    /// There is none.
    End,
    /// The input is too long.
    Over,
    /// A read failed.
    Failed,
}

/// Reads the next line.
pub fn next_line<S: Source>(reader: &mut LineReader, input: &mut S) -> NextLine
    requires { reader.old.longest ≡ 1024 }
    ensures goes { IfTold (S.left input.old) (S.left input.new)
        (λ rest after. Goes reader.old reader.new rest after result) }
    ensures falls { IsMore result → budget reader.new < budget reader.old }
    ensures longest { reader.new.longest ≡ 1024 }
    ensures count { S.faults input.old ≤ S.faults input.new }
    ensures cause { result ≡ NextLine.Failed → HasRisen (S.faults input.old) (S.faults input.new) }
    ensures quiet { result ≢ NextLine.Failed → S.faults input.new ≡ S.faults input.old }
{
    match reader.advance(input) {
        Advance::Whole => NextLine::More(read_request(reader.line(), Role::Both)),
        Advance::Last => NextLine::Last(read_request(reader.line(), Role::Both)),
        Advance::Long { whole: true, .. } => NextLine::More(Parsed::Error(ErrorKind::Long)),
        Advance::Long { whole: false, .. } => NextLine::Last(Parsed::Error(ErrorKind::Long)),
        Advance::End => NextLine::End,
        Advance::Spent => NextLine::Over,
        Advance::Failed => NextLine::Failed,
    }
}
