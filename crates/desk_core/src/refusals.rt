//! The tests of a request, in the order in which they are made.

ghost use Rattle.std.specs.Prelude.{◌≡◌, ◌≤◌, IfOk};
ghost use Rattle.road_model.specs.declared.request.Request.TheVariants as the;
ghost use Rattle.desk_core.specs.Refusals.{outcome, is_newer, is_within, AreEnds, IsInRange};
ghost use Rattle.desk_core.specs.Outcomes.{query_in, ratio_in, vertex_in, IsOutcome};

use road_model::{
    ArcNo, Change, Cursor, CursorQuery, ErrorKind, LAST_VERSION, MAX_LENGTH, Query, Ratio, Request,
    Vertex,
};

/// The most items that a page may have.
const MAX_SIZE: u64 = 64;

/// What a request is tested against.
#[derive(Clone, Copy, Debug, PartialEq, Eq)]
pub struct Limits {
    /// The vertices of the graph are 1 to this number.
    pub vertices: u32,
    /// Its arcs are 1 to this number.
    pub arcs: u32,
    /// The number of the version that answers.
    pub number: u64,
    /// The answer that the request asks for is kept.
    pub kept: bool,
}

/// What a request asks, by numbers that are in range.
#[derive(Clone, Copy, Debug)]
pub enum Asked {
    Best {
        from: Vertex,
        to: Vertex,
    },
    /// A page of the answer in the version of this number.
    Page {
        number: u64,
        query: Query,
        size: u64,
        offset: u64,
    },
    Why {
        query: Query,
        via: Vertex,
    },
    Version,
    Length(Change),
    Publish,
    Quit,
}

/// Whether a number is at least 1 and at most the limit.
fn is_within(limit: u64, number: u64) -> bool
    ensures { result ≡ is_within 1 limit number }
{
    1 <= number && number <= limit
}

/// The vertex of a number, where the graph has it.
fn vertex(limits: &Limits, number: u64) -> Option<Vertex>
    ensures { result ≡ vertex_in limits.now.vertices number }
{
    if !is_within(u64::from(limits.vertices), number) {
        return None;
    }
    Some(Vertex(number as u32))
}

/// A ratio from its numerator and denominator, where it is at most the cap.
fn ratio(numbers: (u64, u64), cap: u64) -> Option<Ratio>
    requires { cap ≤ 4 }
    ensures { result ≡ ratio_in cap numbers }
{
    Ratio::new(numbers.0, numbers.1, cap).ok()
}

/// The query of these numbers, where its vertices, and then its ratios, are in range.
fn query(limits: &Limits, numbers: &CursorQuery) -> Result<Query, ErrorKind>
    ensures { result ≡ query_in limits.now numbers.now }
{
    let (Some(from), Some(to)) = (vertex(limits, numbers.from), vertex(limits, numbers.to)) else {
        return Err(ErrorKind::Vertex);
    };
    let Some(gamma) = ratio(numbers.gamma, 1) else {
        return Err(ErrorKind::Ratio);
    };
    let Some(alpha) = ratio(numbers.alpha, 1) else {
        return Err(ErrorKind::Ratio);
    };
    let Some(epsilon) = ratio(numbers.epsilon, 4) else {
        return Err(ErrorKind::Ratio);
    };
    Ok(Query {
        from,
        to,
        gamma,
        alpha,
        epsilon,
    })
}

/// Whether a version newer than this number was asked for.
fn is_newer(since: Option<u64>, number: u64) -> bool
    ensures { result ≡ is_newer since number }
{
    match since {
        Some(since) => number < since,
        None => false,
    }
}

fn best(limits: &Limits, from: u64, to: u64) -> Result<Asked, ErrorKind>
    ensures { IsOutcome limits.now (the.Best from to) result }
{
    let (Some(from), Some(to)) = (vertex(limits, from), vertex(limits, to)) else {
        return Err(ErrorKind::Vertex);
    };
    Ok(Asked::Best { from, to })
}

fn route(
    limits: &Limits,
    numbers: &CursorQuery,
    size: u64,
    since: Option<u64>,
) -> Result<Asked, ErrorKind>
    ensures { IsOutcome limits.now (the.Route numbers.now size since) result }
{
    let query = query(limits, numbers)?;
    if !is_within(MAX_SIZE, size) {
        return Err(ErrorKind::Size);
    }
    if is_newer(since, limits.number) {
        return Err(ErrorKind::Behind(limits.number));
    }
    Ok(Asked::Page {
        number: limits.number,
        query,
        size,
        offset: 0,
    })
}

fn next(limits: &Limits, cursor: &Cursor) -> Result<Asked, ErrorKind>
    ensures { IsOutcome limits.now (the.Next cursor.now) result }
{
    let query = query(limits, &cursor.query)?;
    if !is_within(MAX_SIZE, cursor.size) {
        return Err(ErrorKind::Size);
    }
    if cursor.version != limits.number && !limits.kept {
        return Err(ErrorKind::Gone(limits.number));
    }
    Ok(Asked::Page {
        number: cursor.version,
        query,
        size: cursor.size,
        offset: cursor.offset,
    })
}

fn why(
    limits: &Limits,
    numbers: &CursorQuery,
    via: u64,
    since: Option<u64>,
) -> Result<Asked, ErrorKind>
    ensures { IsOutcome limits.now (the.Why numbers.now via since) result }
{
    let Some(via) = vertex(limits, via) else {
        return Err(ErrorKind::Vertex);
    };
    let query = query(limits, numbers)?;
    if is_newer(since, limits.number) {
        return Err(ErrorKind::Behind(limits.number));
    }
    Ok(Asked::Why { query, via })
}

fn length(limits: &Limits, arc: u64, length: u64) -> Result<Asked, ErrorKind>
    ensures { IsOutcome limits.now (the.Length arc length) result }
{
    if !is_within(u64::from(limits.arcs), arc) {
        return Err(ErrorKind::ArcRange);
    }
    if !is_within(MAX_LENGTH, length) {
        return Err(ErrorKind::LengthRange);
    }
    let arc = ArcNo(arc as u32);
    Ok(Asked::Length(Change { arc, length }))
}

fn publish(limits: &Limits) -> Result<Asked, ErrorKind>
    ensures { IsOutcome limits.now the.Publish result }
{
    if limits.number == LAST_VERSION {
        return Err(ErrorKind::Full);
    }
    Ok(Asked::Publish)
}

/// What a request asks, or its refusal: the first test that fails. Takes no memory.
pub fn tested(limits: &Limits, request: &Request) -> Result<Asked, ErrorKind>
    ensures outcome { result ≡ outcome limits.now request.now }
    ensures ranges { IfOk result (IsInRange limits.now) }
{
    match request {
        Request::Best { from, to } => best(limits, *from, *to),
        Request::Route { query, size, since } => route(limits, query, *size, *since),
        Request::Next { cursor } => next(limits, cursor),
        Request::BadCursor => Err(ErrorKind::Cursor),
        Request::Why { query, via, since } => why(limits, query, *via, *since),
        Request::Version => Ok(Asked::Version),
        Request::Length { arc, length: new } => length(limits, *arc, *new),
        Request::Publish => publish(limits),
        Request::Quit => Ok(Asked::Quit),
    }
}
