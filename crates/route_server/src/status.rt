//! How a run ended.

use certificate_text::CertFault;
use dimacs_reader::GraphFault;
use std::fmt;

/// How a run of the program ended.
#[derive(Clone, Copy, Debug, PartialEq, Eq)]
pub enum Status {
    /// The work is whole.
    Done,
    /// The certificate has this fault, its first, and the line that says so was written.
    CheckedNo(CertFault),
    /// The words aren't those of a command.
    Usage,
    /// The graph file has this fault, its first.
    GraphRefused(GraphFault),
    /// A read of a file or the input failed.
    ReadFault,
    /// A write of the output failed.
    WriteFault,
    /// Memory was refused.
    NoMemory,
    /// The input has more than 4294967296 bytes.
    InputLong,
    /// The graph has no vertex of a number that the query leads from or to.
    QueryRefused,
}

impl Status {
    ghost use Rattle.std.specs.Prelude.{◌≡◌};
    ghost use Rattle.route_server.specs.Statuses.{status_number};

    /// The number that the process ends with.
    pub fn number(&self) -> u8
        ensures { result ≡ status_number self.now }
    {
        match self {
            Status::Done => 0,
            Status::CheckedNo(_) => 1,
            Status::Usage => 2,
            Status::GraphRefused(_) => 3,
            Status::ReadFault => 4,
            Status::WriteFault => 5,
            Status::NoMemory => 6,
            Status::InputLong => 7,
            Status::QueryRefused => 8,
        }
    }
}

impl fmt::Display for Status {
    ghost use Rattle.std.specs.Prelude.{Some};
    ghost use Rattle.route_server.specs.Statuses.{status_text};

    ghost output = { λ status. Some (status_text status) };

    fn fmt<W: fmt::Write>(&self, f: &mut fmt::Formatter<W>) -> fmt::Result {
        match self {
            Status::Done => write!(f, "done"),
            Status::CheckedNo(fault) => {
                let (line, word) = (fault.line, fault.kind.word());
                write!(f, "certificate refused at line {line}: {word}")
            }
            Status::Usage => write!(f, "usage"),
            Status::GraphRefused(fault) => {
                let (line, word) = (fault.line, fault.kind.word());
                write!(f, "graph refused at line {line}: {word}")
            }
            Status::ReadFault => write!(f, "read fault"),
            Status::WriteFault => write!(f, "write fault"),
            Status::NoMemory => write!(f, "out of memory"),
            Status::InputLong => write!(f, "input too long"),
            Status::QueryRefused => write!(f, "vertex out of range"),
        }
    }
}
