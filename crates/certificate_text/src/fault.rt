//! What can be wrong with a certificate.

ghost use Rattle.std.specs.Prelude.{◌≡◌};
ghost use Rattle.certificate_text.specs.declared.fault.CertError.TheVariants.{NoMemory};

use std::alloc::{AllocError, AllocFailed};
use std::error::Error;
use std::fmt;

/// The kinds of faults: three of the text, and one for each check that a line has to pass.
#[derive(Clone, Copy, Debug, PartialEq, Eq)]
pub enum CertKind {
    /// A line that can't stand in its place, or bytes after the last line.
    Syntax,
    /// The text ends before the last line does.
    Truncated,
    /// More than 4611686018427387904 bytes.
    Long,
    /// The graph has other numbers of vertices and arcs.
    Graph,
    /// A vertex or a ratio of the query is out of range.
    Query,
    /// The root isn't a vertex, or an earlier block has the same root and direction.
    Block,
    /// The vertex isn't one, or isn't above that of the row before.
    Vertex,
    /// The label is above the radius.
    Radius,
    /// The root alone has arc 0, and the label 0.
    Root,
    /// The arc isn't at the vertex, or has no row at its other end.
    Arc,
    /// The label isn't that at the arc's other end and the arc's length.
    Tight,
    /// An arc of a lower number is tight too.
    Least,
    /// The root has no row.
    Rootless,
    /// An arc leads within the radius to a vertex with no row, or with a greater label.
    Closed,
    /// The query is said to have no walk, and its block doesn't show that.
    NoPath,
    /// The optimum isn't that of the blocks.
    Optimum,
    /// The radius of a block is below the bound on an alternative's length.
    Bound,
    /// The vertex isn't near enough to both ends.
    Near,
    /// The arcs aren't those through the vertex, or are the optimum's.
    Walk,
    /// A lower vertex has the same path.
    Name,
    /// A number isn't that of the path.
    Numbers,
    /// The path shares more with the optimum than the limit.
    Share,
    /// A vertex of the path has no block that reaches to the path's end.
    Cover,
    /// A subpath that has to be shortest isn't.
    Local,
    /// A subpath is stretched too far.
    Stretch,
    /// The route isn't after the one before in rank order.
    Order,
    /// The vertex isn't the next one near enough to both ends.
    Next,
    /// The reason doesn't hold.
    Reason,
}

impl CertKind {
    ghost use Rattle.std.specs.Prelude.{◌≡◌};
    ghost use Rattle.certificate_text.specs.Messages.{fault_meaning, fault_word};

    /// The word for it. Programs match it, so it stays as it is; the text of `Display` may be bettered.
    pub fn word(&self) -> &'static str
        ensures { result.now ≡ fault_word self.now }
    {
        match self {
            CertKind::Syntax => "syntax",
            CertKind::Truncated => "truncated",
            CertKind::Long => "long",
            CertKind::Graph => "graph",
            CertKind::Query => "query",
            CertKind::Block => "block",
            CertKind::Vertex => "vertex",
            CertKind::Radius => "radius",
            CertKind::Root => "root",
            CertKind::Arc => "arc",
            CertKind::Tight => "tight",
            CertKind::Least => "least",
            CertKind::Rootless => "rootless",
            CertKind::Closed => "closed",
            CertKind::NoPath => "none",
            CertKind::Optimum => "optimum",
            CertKind::Bound => "bound",
            CertKind::Near => "near",
            CertKind::Walk => "walk",
            CertKind::Name => "name",
            CertKind::Numbers => "numbers",
            CertKind::Share => "share",
            CertKind::Cover => "cover",
            CertKind::Local => "local",
            CertKind::Stretch => "stretch",
            CertKind::Order => "order",
            CertKind::Next => "next",
            CertKind::Reason => "reason",
        }
    }

    /// What it means, in words.
    fn meaning(&self) -> &'static str
        ensures { result.now ≡ fault_meaning self.now }
    {
        match self {
            CertKind::Syntax => "the line can't stand here",
            CertKind::Truncated => "the certificate ends before its last line",
            CertKind::Long => "the certificate has more than 4611686018427387904 bytes",
            CertKind::Graph => "the graph has other numbers of vertices and arcs",
            CertKind::Query => "a vertex or a ratio of the query is out of range",
            CertKind::Block =>
                "the root isn't a vertex, or an earlier block has the same root and direction",
            CertKind::Vertex => "the vertex isn't one, or isn't above that of the row before",
            CertKind::Radius => "the label is above the radius",
            CertKind::Root => "the root alone has arc 0, and the label 0",
            CertKind::Arc => "the arc isn't at the vertex, or has no row at its other end",
            CertKind::Tight => "the label isn't that at the arc's other end and the arc's length",
            CertKind::Least => "an arc of a lower number is tight too",
            CertKind::Rootless => "the root has no row",
            CertKind::Closed =>
                "an arc leads within the radius to a vertex with no row, or with a greater label",
            CertKind::NoPath => "a walk to the target isn't excluded",
            CertKind::Optimum => "the optimum isn't that of the blocks",
            CertKind::Bound =>
                "the radius of a block is below the bound on an alternative's length",
            CertKind::Near => "the vertex isn't near enough to both ends",
            CertKind::Walk => "the arcs aren't those through the vertex, or are the optimum's",
            CertKind::Name => "a lower vertex has the same path",
            CertKind::Numbers => "a number isn't that of the path",
            CertKind::Share => "the path shares more with the optimum than the limit",
            CertKind::Cover => "a vertex of the path has no block that reaches to the path's end",
            CertKind::Local => "a subpath that has to be shortest isn't",
            CertKind::Stretch => "a subpath is stretched too far",
            CertKind::Order => "the route isn't after the one before in rank order",
            CertKind::Next => "the vertex isn't the next one near enough to both ends",
            CertKind::Reason => "the reason doesn't hold",
        }
    }
}

impl fmt::Display for CertKind {
    ghost use Rattle.std.specs.Prelude.{Some};
    ghost use Rattle.certificate_text.specs.Messages.{fault_meaning};

    ghost output = { λ kind. Some (fault_meaning kind) };

    fn fmt<W: fmt::Write>(&self, f: &mut fmt::Formatter<W>) -> fmt::Result {
        f.write_str(self.meaning())
    }
}

impl Error for CertKind {}

/// The first fault of a certificate, with its line, counted from 1.
#[derive(Clone, Copy, Debug, PartialEq, Eq)]
pub struct CertFault {
    pub line: u64,
    pub kind: CertKind,
}

impl fmt::Display for CertFault {
    ghost use Rattle.std.specs.Prelude.{Some};
    ghost use Rattle.certificate_text.specs.Messages.{fault_text};

    ghost output = { λ fault. Some (fault_text fault) };

    fn fmt<W: fmt::Write>(&self, f: &mut fmt::Formatter<W>) -> fmt::Result {
        write!(f, "line {}: {}", self.line, self.kind)
    }
}

impl Error for CertFault {}

/// Why no certificate was read.
#[derive(Clone, Copy, Debug, PartialEq, Eq)]
pub enum CertError {
    /// The text has a fault.
    Refused(CertFault),
    /// A read of the source failed before a fault was found.
    ReadFault,
    /// Memory was refused.
    NoMemory,
}

impl fmt::Display for CertError {
    ghost use Rattle.std.specs.Prelude.{Some};
    ghost use Rattle.certificate_text.specs.Messages.{error_text};

    ghost output = { λ error. Some (error_text error) };

    fn fmt<W: fmt::Write>(&self, f: &mut fmt::Formatter<W>) -> fmt::Result {
        match self {
            CertError::Refused(fault) => write!(f, "{fault}"),
            CertError::ReadFault => write!(f, "a read of the certificate failed"),
            CertError::NoMemory => write!(f, "out of memory"),
        }
    }
}

impl Error for CertError {}

impl From<AllocError> for CertError {
    ghost from_gives = { λ _ e. e ≡ NoMemory };

    fn from(_error: AllocError) -> CertError {
        CertError::NoMemory
    }
}

impl<T: Drop> From<AllocFailed<T>> for CertError {
    ghost from_gives = { λ _ e. e ≡ NoMemory };

    fn from(_error: AllocFailed<T>) -> CertError {
        CertError::NoMemory
    }
}
