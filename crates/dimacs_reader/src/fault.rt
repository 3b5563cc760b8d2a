//! What can be wrong with a graph file.

ghost use Rattle.std.specs.Prelude.{◌≡◌};
ghost use Rattle.dimacs_reader.specs.declared.fault.GraphError.TheVariants.{NoMemory};

use std::alloc::{AllocError, AllocFailed};
use std::error::Error;
use std::fmt;

/// The kinds of faults.
#[derive(Clone, Copy, Debug, PartialEq, Eq)]
pub enum GraphKind {
    /// An arc line, or the end, comes before a problem line.
    NoProblem,
    /// A second problem line.
    SecondProblem,
    /// A line that is none of the kinds, or has another count of fields.
    BadLine,
    /// A field that isn't 1 to 19 decimal digits where a number belongs.
    BadNumber,
    /// An arc's end that isn't one of the vertices.
    VertexRange,
    /// An arc of length 0.
    LengthZero,
    /// An arc longer than 4294967295.
    LengthLarge,
    /// An arc line after as many as the problem line says.
    TooManyArcs,
    /// The end comes before as many arc lines as the problem line says.
    TooFewArcs,
    /// More than 33554432 vertices.
    LimitVertices,
    /// More than 67108864 arcs.
    LimitArcs,
    /// A line of more than 256 bytes that is no comment.
    LineLong,
    /// A file of more than 4294967296 bytes.
    FileLong,
}

impl GraphKind {
    ghost use Rattle.std.specs.Prelude.{◌≡◌};
    ghost use Rattle.dimacs_reader.specs.Messages.{kind_meaning, kind_word};

    /// The word for it. Programs match it, so it stays as it is; the text of `Display` may be bettered.
    pub fn word(&self) -> &'static str
        ensures { result.now ≡ kind_word self.now }
    {
        match self {
            GraphKind::NoProblem => "no-problem",
            GraphKind::SecondProblem => "second-problem",
            GraphKind::BadLine => "bad-line",
            GraphKind::BadNumber => "bad-number",
            GraphKind::VertexRange => "vertex-range",
            GraphKind::LengthZero => "length-zero",
            GraphKind::LengthLarge => "length-large",
            GraphKind::TooManyArcs => "too-many-arcs",
            GraphKind::TooFewArcs => "too-few-arcs",
            GraphKind::LimitVertices => "limit-vertices",
            GraphKind::LimitArcs => "limit-arcs",
            GraphKind::LineLong => "line-long",
            GraphKind::FileLong => "file-long",
        }
    }

    /// What it means, in words.
    fn meaning(&self) -> &'static str
        ensures { result.now ≡ kind_meaning self.now }
    {
        match self {
            GraphKind::NoProblem => "an arc line, or the end, comes before a problem line",
            GraphKind::SecondProblem => "a problem line comes after another",
            GraphKind::BadLine => "the line is of no known kind, or has another count of fields",
            GraphKind::BadNumber => "a field isn't a number of 1 to 19 digits",
            GraphKind::VertexRange => "an end of an arc is outside the graph",
            GraphKind::LengthZero => "the length of an arc is 0",
            GraphKind::LengthLarge => "the length of an arc is above 4294967295",
            GraphKind::TooManyArcs => "there are more arcs than the problem line says",
            GraphKind::TooFewArcs => "there are fewer arcs than the problem line says",
            GraphKind::LimitVertices => "there are more than 33554432 vertices",
            GraphKind::LimitArcs => "there are more than 67108864 arcs",
            GraphKind::LineLong => "the line has more than 256 bytes and is no comment",
            GraphKind::FileLong => "the file has more than 4294967296 bytes",
        }
    }
}

impl fmt::Display for GraphKind {
    ghost use Rattle.std.specs.Prelude.{Some};
    ghost use Rattle.dimacs_reader.specs.Messages.{kind_meaning};

    ghost output = { λ kind. Some (kind_meaning kind) };

    fn fmt<W: fmt::Write>(&self, f: &mut fmt::Formatter<W>) -> fmt::Result {
        f.write_str(self.meaning())
    }
}

impl Error for GraphKind {}

/// The first fault of a file, with its line, counted from 1. What is missing at the end is missing at
/// the line after the last.
#[derive(Clone, Copy, Debug, PartialEq, Eq)]
pub struct GraphFault {
    pub line: u64,
    pub kind: GraphKind,
}

impl fmt::Display for GraphFault {
    ghost use Rattle.std.specs.Prelude.{Some};
    ghost use Rattle.dimacs_reader.specs.Messages.{fault_text};

    ghost output = { λ fault. Some (fault_text fault) };

    fn fmt<W: fmt::Write>(&self, f: &mut fmt::Formatter<W>) -> fmt::Result {
        write!(f, "line {}: {}", self.line, self.kind)
    }
}

impl Error for GraphFault {}

/// Why there is no graph.
#[derive(Clone, Copy, Debug, PartialEq, Eq)]
pub enum GraphError {
    /// The file has a fault.
    Refused(GraphFault),
    /// A read of the source failed before a fault was found.
    ReadFault,
    /// Memory was refused.
    NoMemory,
}

impl fmt::Display for GraphError {
    ghost use Rattle.std.specs.Prelude.{Some};
    ghost use Rattle.dimacs_reader.specs.Messages.{graph_error_text};

    ghost output = { λ error. Some (graph_error_text error) };

    fn fmt<W: fmt::Write>(&self, f: &mut fmt::Formatter<W>) -> fmt::Result {
        match self {
            GraphError::Refused(fault) => write!(f, "{fault}"),
            GraphError::ReadFault => write!(f, "a read of the file failed"),
            GraphError::NoMemory => write!(f, "out of memory"),
        }
    }
}

impl Error for GraphError {}

impl From<AllocError> for GraphError {
    ghost from_gives = { λ _ e. e ≡ NoMemory };

    fn from(_error: AllocError) -> GraphError {
        GraphError::NoMemory
    }
}

impl<T: Drop> From<AllocFailed<T>> for GraphError {
    ghost from_gives = { λ _ e. e ≡ NoMemory };

    fn from(_error: AllocFailed<T>) -> GraphError {
        GraphError::NoMemory
    }
}
