//! One line, judged by what came before it.

ghost use Rattle.std.specs.Prelude.{ℕ, List, Some, ◌≡◌, ◌≢◌, ◌<◌, ◌≤◌, ◌^◌, [], ◌∷◌, length, codes, MatchOption};
ghost use Rattle.road_text.specs.Fields.{fields_of};
ghost use Rattle.road_text.specs.Numbers.{number_of};
ghost use Rattle.dimacs_reader.specs.declared.line.TheConstants.{MAX_LINE};
ghost use Rattle.dimacs_reader.specs.Gr.{is_byte};
ghost use Rattle.dimacs_reader.specs.Judging.{Judges, JudgesFields, JudgesRow};

use crate::fast::arc_numbers;
use crate::fault::GraphKind;
use crate::line::{Judged, Problem};
use road_model::{ArcRow, MAX_ARCS, MAX_LENGTH, MAX_VERTICES, Vertex};
use road_text::{first_byte, first_field, number};

/// The fields, where there are exactly three.
fn values(fields: &[u8]) -> Option<(&[u8], &[u8], &[u8])>
    ensures { MatchOption result (length (fields_of fields.now) ≢ 3)
        (λ found. fields_of fields.now ≡ found.0.now ∷ found.1.now ∷ found.2.now ∷ []) }
{
    let (first, beyond) = first_field(fields)?;
    let (second, beyond) = first_field(beyond)?;
    let (third, rest) = first_field(beyond)?;
    if first_field(rest).is_some() {
        return None;
    }
    Some((first, second, third))
}

/// A problem line, by the fields after its first one.
fn judge_problem(fields: &[u8], problem: Option<Problem>) -> Judged
    ensures { (count : ℕ) → JudgesFields problem count (codes "p" ∷ fields_of fields.now) result }
{
    if problem.is_some() {
        return Judged::Wrong(GraphKind::SecondProblem);
    }
    let Some((form, vertices, arcs)) = values(fields) else {
        return Judged::Wrong(GraphKind::BadLine);
    };
    if form != b"sp".as_slice() {
        return Judged::Wrong(GraphKind::BadLine);
    }
    let (Some(vertices), Some(arcs)) = (number(vertices), number(arcs)) else {
        return Judged::Wrong(GraphKind::BadNumber);
    };
    if vertices > MAX_VERTICES as u64 {
        return Judged::Wrong(GraphKind::LimitVertices);
    }
    if arcs > MAX_ARCS as u64 {
        return Judged::Wrong(GraphKind::LimitArcs);
    }
    Judged::NewProblem(Problem {
        vertices: vertices as u32,
        arcs: arcs as u32,
    })
}

/// An arc line, by the fields after its first one.
fn judge_arc(fields: &[u8], problem: Option<Problem>, count: usize) -> Judged
    ensures { JudgesFields problem count (codes "a" ∷ fields_of fields.now) result }
{
    let Some(Problem { vertices, arcs }) = problem else {
        return Judged::Wrong(GraphKind::NoProblem);
    };
    if count >= arcs as usize {
        return Judged::Wrong(GraphKind::TooManyArcs);
    }
    let Some((tail, head, length)) = values(fields) else {
        return Judged::Wrong(GraphKind::BadLine);
    };
    let (Some(tail), Some(head), Some(length)) = (number(tail), number(head), number(length)) else {
        return Judged::Wrong(GraphKind::BadNumber);
    };
    judge_row(vertices as u64, tail, head, length)
}

/// An arc by its numbers, in a graph of so many vertices.
fn judge_row(vertices: u64, tail: u64, head: u64, length: u64) -> Judged
    requires { vertices < 2 ^ 32 }
    ensures { JudgesRow vertices tail head length result }
{
    if tail == 0 || tail > vertices || head == 0 || head > vertices {
        return Judged::Wrong(GraphKind::VertexRange);
    }
    if length == 0 {
        return Judged::Wrong(GraphKind::LengthZero);
    }
    if length > MAX_LENGTH {
        return Judged::Wrong(GraphKind::LengthLarge);
    }
    Judged::NewArc(ArcRow {
        tail: Vertex(tail as u32),
        head: Vertex(head as u32),
        length,
    })
}

/// A line that is no comment, by its fields.
fn judge_fields(line: &[u8], problem: Option<Problem>, count: usize) -> Judged
    ensures { JudgesFields problem count (fields_of line.now) result }
{
    let Some((word, fields)) = first_field(line) else {
        return Judged::Nothing;
    };
    if word == b"p".as_slice() {
        judge_problem(fields, problem)
    } else if word == b"a".as_slice() {
        judge_arc(fields, problem, count)
    } else {
        Judged::Wrong(GraphKind::BadLine)
    }
}

/// Whether this is the first byte of a comment that isn't blank.
pub(crate) fn begins_comment(first: Option<u8>) -> bool
    ensures { result ≡ is_byte first 99 }
{
    first == Some(b'c')
}

/// An arc line by its three numbers.
#[inline]
fn judge_numbers(
    problem: Option<Problem>,
    count: usize,
    tail: u64,
    head: u64,
    length: u64,
) -> Judged
    ensures { (first second third : List ℕ) → number_of first ≡ Some tail
        → number_of second ≡ Some head → number_of third ≡ Some length
        → JudgesFields problem count (codes "a" ∷ first ∷ second ∷ third ∷ []) result }
{
    let Some(Problem { vertices, arcs }) = problem else {
        return Judged::Wrong(GraphKind::NoProblem);
    };
    if arcs as usize <= count {
        return Judged::Wrong(GraphKind::TooManyArcs);
    }
    judge_row(vertices as u64, tail, head, length)
}

/// Judges one line after a problem and so many arcs.
pub(crate) fn judge(line: &[u8], problem: Option<Problem>, count: usize) -> Judged
    requires { length line.now ≤ MAX_LINE }
    ensures { Judges problem count line.now result }
{
    if let Some((tail, head, length)) = arc_numbers(line) {
        return judge_numbers(problem, count, tail, head, length);
    }
    if begins_comment(first_byte(line)) {
        Judged::Nothing
    } else {
        judge_fields(line, problem, count)
    }
}
