//! Request lines.

ghost use Rattle.std.specs.Prelude.{◌≡◌};
ghost use Rattle.road_text.specs.Fields.{fields_of};
ghost use Rattle.line_front.specs.Requests.{
  alone,
  best_of,
  length_of,
  may_ask,
  next_of,
  parsed_of,
  query_with,
  request_of,
  route_of,
  two_numbers,
  why_of,
};

use crate::options::{Options, read_options};
use road_model::{CursorQuery, ErrorKind, Request};
use road_text::{first_field, number};
use route_ranking::read_cursor;

/// The longest line that can be a request, its end not counted.
pub const MAX_LINE: usize = 1024;

/// How many items a page has where the line doesn't say it.
const USUAL_SIZE: u64 = 5;

/// Who asks.
#[derive(Clone, Copy, Debug, PartialEq, Eq)]
pub enum Role {
    /// Someone who may both read and publish.
    Both,
    /// Someone who asks for routes.
    Reader,
    /// Someone who changes lengths.
    Publisher,
}

/// What a line is.
#[derive(Clone, Copy, Debug, PartialEq, Eq)]
pub enum Parsed {
    /// It has no field, and gets no reply.
    Empty,
    Request(Request),
    /// It is too long, or isn't a request for the role.
    Error(ErrorKind),
}

/// The numbers of the fields, where there are two of them.
fn two_numbers(fields: &[u8]) -> Option<(u64, u64)>
    ensures { result ≡ two_numbers (fields_of fields.now) }
{
    let (first, beyond) = first_field(fields)?;
    let (second, rest) = first_field(beyond)?;
    if first_field(rest).is_some() {
        return None;
    }
    number(first).zip(number(second))
}

/// The request of the fields after `optimum`.
fn read_best(fields: &[u8]) -> Option<Request>
    ensures { result ≡ best_of (fields_of fields.now) }
{
    let (from, to) = two_numbers(fields)?;
    Some(Request::Best { from, to })
}

/// The request of the fields after `length`.
fn read_length(fields: &[u8]) -> Option<Request>
    ensures { result ≡ length_of (fields_of fields.now) }
{
    let (arc, length) = two_numbers(fields)?;
    Some(Request::Length { arc, length })
}

/// A query with the ratios that the options give, and the usual ones for the others.
fn query_with(from: u64, to: u64, options: &Options) -> CursorQuery
    ensures { result ≡ query_with (from, to) options.now }
{
    let usual = CursorQuery::usual(from, to);
    CursorQuery {
        gamma: options.gamma.unwrap_or(usual.gamma),
        alpha: options.alpha.unwrap_or(usual.alpha),
        epsilon: options.epsilon.unwrap_or(usual.epsilon),
        ..usual
    }
}

/// The request of the fields after `route`.
fn read_route(fields: &[u8]) -> Option<Request>
    ensures { result ≡ route_of (fields_of fields.now) }
{
    let (from, beyond) = first_field(fields)?;
    let (to, rest) = first_field(beyond)?;
    let from = number(from)?;
    let to = number(to)?;
    let options = read_options(rest)?;
    Some(Request::Route {
        query: query_with(from, to, &options),
        size: options.size.unwrap_or(USUAL_SIZE),
        since: options.since,
    })
}

/// The request of the field after `next`: a cursor, or a text that is none.
fn read_next(fields: &[u8]) -> Option<Request>
    ensures { result ≡ next_of (fields_of fields.now) }
{
    let (text, rest) = first_field(fields)?;
    if first_field(rest).is_some() {
        return None;
    }
    match read_cursor(text) {
        Some(cursor) => Some(Request::Next { cursor }),
        None => Some(Request::BadCursor),
    }
}

/// The request of the fields after `why`.
fn read_why(fields: &[u8]) -> Option<Request>
    ensures { result ≡ why_of (fields_of fields.now) }
{
    let (from, beyond) = first_field(fields)?;
    let (to, beyond) = first_field(beyond)?;
    let (via, rest) = first_field(beyond)?;
    let from = number(from)?;
    let to = number(to)?;
    let via = number(via)?;
    let options = read_options(rest)?;
    if options.size.is_some() {
        return None;
    }
    Some(Request::Why {
        query: query_with(from, to, &options),
        via,
        since: options.since,
    })
}

/// The request of a word that no field follows.
fn alone(request: Request, fields: &[u8]) -> Option<Request>
    ensures { result ≡ alone request (fields_of fields.now) }
{
    match first_field(fields) {
        None => Some(request),
        Some(_) => None,
    }
}

/// The request of a word and the fields after it.
fn read_word(word: &[u8], fields: &[u8]) -> Option<Request>
    ensures { result ≡ request_of word.now (fields_of fields.now) }
{
    if word == b"optimum".as_slice() {
        return read_best(fields);
    }
    if word == b"route".as_slice() {
        return read_route(fields);
    }
    if word == b"next".as_slice() {
        return read_next(fields);
    }
    if word == b"why".as_slice() {
        return read_why(fields);
    }
    if word == b"version".as_slice() {
        return alone(Request::Version, fields);
    }
    if word == b"length".as_slice() {
        return read_length(fields);
    }
    if word == b"publish".as_slice() {
        return alone(Request::Publish, fields);
    }
    if word == b"quit".as_slice() {
        return alone(Request::Quit, fields);
    }
    None
}

/// Whether the request is one for the role.
fn may_ask(role: Role, request: &Request) -> bool
    ensures { result ≡ may_ask role request.now }
{
    match request {
        Request::Version | Request::Quit => true,
        Request::Length { .. } | Request::Publish => role != Role::Reader,
        Request::Best { .. }
        | Request::Route { .. }
        | Request::Next { .. }
        | Request::BadCursor
        | Request::Why { .. } => role != Role::Publisher,
    }
}

/// What a line asks, its end not included.
///
/// It looks a few times at each byte, and takes no memory but the stack's.
#[tactic(auto, unfolding(crate::specs::Requests::parsed_of))]
pub fn read_request(line: &[u8], role: Role) -> Parsed
    ensures { result ≡ parsed_of role line.now }
{
    if line.len() > MAX_LINE {
        return Parsed::Error(ErrorKind::Long);
    }
    let Some((word, fields)) = first_field(line) else {
        return Parsed::Empty;
    };
    match read_word(word, fields) {
        Some(request) if may_ask(role, &request) => Parsed::Request(request),
        _ => Parsed::Error(ErrorKind::Syntax),
    }
}

#[cfg(test)]
mod tests;
