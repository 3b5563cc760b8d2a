//! What one line says.

use crate::fault::GraphKind;
use road_model::ArcRow;

/// The longest line that isn't a comment, its end not counted.
pub const MAX_LINE: usize = 256;

/// The most bytes of a file.
pub const MAX_FILE: u64 = 4294967296;

/// What a problem line says.
#[derive(Clone, Copy, Debug, PartialEq, Eq)]
pub(crate) struct Problem {
    pub(crate) vertices: u32,
    pub(crate) arcs: u32,
}

/// What a line is found to be.
#[derive(Clone, Copy, Debug, PartialEq, Eq)]
pub(crate) enum Judged {
    Wrong(GraphKind),
    Nothing,
    NewProblem(Problem),
    NewArc(ArcRow),
}
