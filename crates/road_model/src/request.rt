use crate::{Optimum, PageSpan, Verdict, Vertex};
use std::error::Error;
use std::fmt;

/// The numbers of a query as they were given, which may be out of range.
#[derive(Clone, Copy, Debug, PartialEq, Eq)]
pub struct CursorQuery {
    pub from: u64,
    pub to: u64,
    /// A numerator and a denominator, as are the two ratios below.
    pub gamma: (u64, u64),
    pub alpha: (u64, u64),
    pub epsilon: (u64, u64),
}

impl CursorQuery {
    ghost use Rattle.std.specs.Prelude.{◌≡◌};
    ghost use Rattle.road_model.specs.Queries.{usual_numbers};

    /// Two vertices with the usual ratios: 4/5 for `gamma`, and 1/4 for `alpha` and `epsilon`.
    pub fn usual(from: u64, to: u64) -> CursorQuery
        ensures { result ≡ usual_numbers from to }
    {
        CursorQuery {
            from,
            to,
            gamma: (4, 5),
            alpha: (1, 4),
            epsilon: (1, 4),
        }
    }
}

/// Where a page of the answer begins: a version, a query, the size of its pages, and how many items stand before.
#[derive(Clone, Copy, Debug, PartialEq, Eq)]
pub struct Cursor {
    pub version: u64,
    pub query: CursorQuery,
    pub size: u64,
    pub offset: u64,
}

/// What is asked of a server. Its numbers are as they were given, and may be out of range.
#[derive(Clone, Copy, Debug, PartialEq, Eq)]
pub enum Request {
    /// The canonical optimum.
    Best {
        from: u64,
        to: u64,
    },
    /// The first page of a whole answer, in a version that isn't older than `since`.
    Route {
        query: CursorQuery,
        size: u64,
        since: Option<u64>,
    },
    /// The page that a cursor points at.
    Next {
        cursor: Cursor,
    },
    /// A page by a text that is no cursor.
    BadCursor,
    /// Why the path through a vertex is, or isn't, among the alternatives.
    Why {
        query: CursorQuery,
        via: u64,
        since: Option<u64>,
    },
    /// The number of the version.
    Version,
    /// A new length of an arc, to be published later.
    Length {
        arc: u64,
        length: u64,
    },
    /// A new version with the changes that were staged.
    Publish,
    /// The end of the requests.
    Quit,
}

/// What a server replies.
#[derive(Debug, Drop)]
pub enum Reply {
    /// The canonical optimum in the version of this number.
    Best {
        number: u64,
        optimum: Optimum,
    },
    /// Items of a plan that stands beside the reply, and the cursor of the next page, if more items follow.
    Page {
        number: u64,
        span: PageSpan,
        more: Option<Cursor>,
    },
    /// No path leads from the source to the target.
    NoPath {
        number: u64,
    },
    /// The verdict on a via vertex.
    Why {
        number: u64,
        via: Vertex,
        verdict: Verdict,
    },
    /// The number of the version.
    Version {
        number: u64,
    },
    /// So many changes are staged.
    Staged {
        count: u64,
    },
    /// The number of the new version.
    Published {
        number: u64,
    },
    /// The request was refused.
    Error(ErrorKind),
}

/// Why a request was refused.
#[derive(Clone, Copy, Debug, PartialEq, Eq)]
pub enum ErrorKind {
    /// The line has more than 1024 bytes.
    Long,
    /// The line is no request.
    Syntax,
    /// The text is no cursor.
    Cursor,
    /// A vertex isn't one of the graph's.
    Vertex,
    /// A ratio has a denominator outside 1 to 1000000, or is above its cap.
    Ratio,
    /// The size of a page is outside 1 to 64.
    Size,
    /// The version that was asked for is newer than this one.
    Behind(u64),
    /// The cursor's version isn't this one, and its answer isn't kept any more.
    Gone(u64),
    /// The arc isn't one of the graph's.
    ArcRange,
    /// The length is outside 1 to 4294967295.
    LengthRange,
    /// There are as many versions as there may be.
    Full,
    /// Memory was refused.
    Memory,
}

impl ErrorKind {
    ghost use Rattle.std.specs.Prelude.{◌≡◌};
    ghost use Rattle.road_model.specs.Messages.{error_number, error_word};

    /// The word that a reply has for it. Programs match it, so it stays as it is; the text of `Display` may be bettered.
    pub fn word(&self) -> &'static str
        ensures { result.now ≡ error_word self.now }
    {
        match self {
            ErrorKind::Long => "long",
            ErrorKind::Syntax => "syntax",
            ErrorKind::Cursor => "cursor",
            ErrorKind::Vertex => "vertex",
            ErrorKind::Ratio => "ratio",
            ErrorKind::Size => "size",
            ErrorKind::Behind(_) => "behind",
            ErrorKind::Gone(_) => "gone",
            ErrorKind::ArcRange => "arc",
            ErrorKind::LengthRange => "length",
            ErrorKind::Full => "full",
            ErrorKind::Memory => "memory",
        }
    }

    /// The number that a reply has after the word, where there is one: of the version that refused.
    pub fn number(&self) -> Option<u64>
        ensures { result ≡ error_number self.now }
    {
        match self {
            ErrorKind::Behind(number) | ErrorKind::Gone(number) => Some(*number),
            _ => None,
        }
    }
}

impl fmt::Display for ErrorKind {
    ghost use Rattle.std.specs.Prelude.{Some};
    ghost use Rattle.road_model.specs.Messages.{error_meaning};

    ghost output = { λ kind. Some (error_meaning kind) };

    fn fmt<W: fmt::Write>(&self, f: &mut fmt::Formatter<W>) -> fmt::Result {
        match self {
            ErrorKind::Long => write!(f, "the line has more than 1024 bytes"),
            ErrorKind::Syntax => write!(f, "the line is no request"),
            ErrorKind::Cursor => write!(f, "the text is no cursor"),
            ErrorKind::Vertex => write!(f, "a vertex is outside the graph"),
            ErrorKind::Ratio => write!(
                f,
                "a ratio is above its cap, or its denominator is outside 1 to 1000000"
            ),
            ErrorKind::Size => write!(f, "the size of a page is outside 1 to 64"),
            ErrorKind::Behind(number) => {
                write!(f, "the version asked for is newer than version {number}")
            }
            ErrorKind::Gone(number) => write!(
                f,
                "the answer of the cursor isn't kept any more in version {number}"
            ),
            ErrorKind::ArcRange => write!(f, "the arc is outside the graph"),
            ErrorKind::LengthRange => write!(f, "the length is outside 1 to 4294967295"),
            ErrorKind::Full => write!(f, "there is no further version"),
            ErrorKind::Memory => write!(f, "out of memory"),
        }
    }
}

impl Error for ErrorKind {}
