//! A line by its words, which have one space between each two.

ghost use Rattle.std.specs.Prelude.{◌≡◌, ◌<◌, ◌==◌, ◌∷◌, length, position, IfSome};
ghost use Rattle.road_text.specs.Numbers.{canonical_of};
ghost use Rattle.certificate_text.specs.Words.{Gives, closed, parts_at, left, number_in, number_alone, pair_alone, numbers_in, ratio_in, version_in, counts_in, asks_in, radius_in, heads_in, row_in, optimum_in, route_in, walk_in, reason_in, reason_after, sole_in, via_in, line_after, line_of, line_said};

use crate::certificate::{BlockKind, BlockRow, CertRoute, NumberList, Reason, ViaRow};
use crate::line::{Refusal, Said};
use road_model::CursorQuery;
use road_text::canonical_number;
use std::alloc::Global;

/// What stands between two words.
const SPACE: u8 = b' ';

/// What stands between the numbers of a ratio.
const SLASH: u8 = b'/';

/// Where the first separator stands.
fn place(bytes: &[u8], separator: u8) -> Option<usize>
    ensures { result ≡ position (λ b. b == separator) bytes.now }
{
    bytes.iter().position(|byte| *byte == separator)
}

/// The bytes up to the first separator, and those after it, where there is one.
fn cut(bytes: &[u8], separator: u8) -> (&[u8], Option<&[u8]>)
    ensures parts { parts_at separator bytes.now ≡ result.0.now ∷ left separator result.1 }
    ensures shorter { IfSome result.1 (λ rest. length rest.now < length bytes.now) }
{
    match place(bytes, separator) {
        Some(at) => (&bytes[..at], Some(&bytes[at + 1..])),
        None => (bytes, None),
    }
}

/// The number of a word.
fn number(word: &[u8]) -> Result<u64, Refusal>
    ensures { Gives (λ n. n) result (canonical_of word.now) }
{
    match canonical_number(word) {
        Some(number) => Ok(number),
        None => Err(Refusal::Wrong),
    }
}

/// That no word is left.
fn ended(rest: Option<&[u8]>, separator: u8) -> Result<(), Refusal>
    ensures { Gives (λ done. done) result (closed (left separator rest.entry)) }
{
    match rest {
        None => Ok(()),
        Some(_) => Err(Refusal::Wrong),
    }
}

/// The next number, and what is left after it.
#[tactic(auto, unfolding(crate::specs::Words::number_in))]
fn next_number(rest: Option<&[u8]>, separator: u8) -> Result<(u64, Option<&[u8]>), Refusal>
    ensures { Gives (λ x. (x.0, left separator x.1)) result (number_in (left separator rest.entry)) }
{
    match rest {
        None => Err(Refusal::Wrong),
        Some(bytes) => {
            let (word, rest) = cut(bytes, separator);
            let number = number(word)?;
            Ok((number, rest))
        }
    }
}

/// The number that is all that is left.
#[tactic(auto, unfolding(crate::specs::Words::number_alone))]
fn last_number(rest: Option<&[u8]>) -> Result<u64, Refusal>
    ensures { Gives (λ x. x) result (number_alone (left SPACE rest.entry)) }
{
    let (number, rest) = next_number(rest, SPACE)?;
    ended(rest, SPACE)?;
    Ok(number)
}

/// The two numbers that are all that is left.
#[tactic(auto, unfolding(crate::specs::Words::pair_alone))]
fn last_pair(rest: Option<&[u8]>, separator: u8) -> Result<(u64, u64), Refusal>
    ensures { Gives (λ x. x) result (pair_alone (left separator rest.entry)) }
{
    let (first, rest) = next_number(rest, separator)?;
    let (second, rest) = next_number(rest, separator)?;
    ended(rest, separator)?;
    Ok((first, second))
}

/// The next word as a ratio, and what is left after it.
#[tactic(auto, unfolding(crate::specs::Words::ratio_in))]
fn next_ratio(rest: Option<&[u8]>) -> Result<((u64, u64), Option<&[u8]>), Refusal>
    ensures { Gives (λ x. (x.0, left SPACE x.1)) result (ratio_in (left SPACE rest.entry)) }
{
    match rest {
        None => Err(Refusal::Wrong),
        Some(bytes) => {
            let (word, rest) = cut(bytes, SPACE);
            let ratio = last_pair(Some(word), SLASH)?;
            Ok((ratio, rest))
        }
    }
}

/// The numbers that are all that is left.
fn last_numbers(alloc: Global, words: Option<&[u8]>) -> Result<NumberList, Refusal>
    ensures { Gives (λ ns. ns) result (numbers_in (left SPACE words.entry)) }
{
    let mut numbers = NumberList::new(alloc);
    let mut rest = words;
    'words: while let Some(bytes) = rest {
        let (word, after) = cut(bytes, SPACE);
        match number(word) {
            Ok(number) => numbers.push(number)?,
            Err(refusal) => return Err(refusal),
        }
        rest = after;
    }
    Ok(numbers)
}

#[tactic(auto, unfolding(crate::specs::Words::version_in))]
fn version(words: Option<&[u8]>) -> Result<Said, Refusal>
    ensures { Gives line_said result (version_in (left SPACE words.entry)) }
{
    match words {
        None => Err(Refusal::Wrong),
        Some(bytes) => {
            let (word, rest) = cut(bytes, SPACE);
            if word != b"1".as_slice() {
                return Err(Refusal::Wrong);
            }
            ended(rest, SPACE)?;
            Ok(Said::Version)
        }
    }
}

#[tactic(auto, unfolding(crate::specs::Words::counts_in))]
fn counts(words: Option<&[u8]>) -> Result<Said, Refusal>
    ensures { Gives line_said result (counts_in (left SPACE words.entry)) }
{
    let (vertices, arcs) = last_pair(words, SPACE)?;
    Ok(Said::Counts(vertices, arcs))
}

#[tactic(auto, unfolding(crate::specs::Words::asks_in))]
fn asks(words: Option<&[u8]>) -> Result<Said, Refusal>
    ensures { Gives line_said result (asks_in (left SPACE words.entry)) }
{
    let (from, rest) = next_number(words, SPACE)?;
    let (to, rest) = next_number(rest, SPACE)?;
    let (gamma, rest) = next_ratio(rest)?;
    let (alpha, rest) = next_ratio(rest)?;
    let (epsilon, rest) = next_ratio(rest)?;
    ended(rest, SPACE)?;
    Ok(Said::Asks(CursorQuery {
        from,
        to,
        gamma,
        alpha,
        epsilon,
    }))
}

/// A radius, or that there is no limit.
#[tactic(auto, unfolding(crate::specs::Words::radius_in))]
fn radius(words: Option<&[u8]>) -> Result<Option<u64>, Refusal>
    ensures { Gives (λ r. r) result (radius_in (left SPACE words.entry)) }
{
    match words {
        None => Err(Refusal::Wrong),
        Some(bytes) => {
            let (word, rest) = cut(bytes, SPACE);
            if word == b"all".as_slice() {
                ended(rest, SPACE)?;
                return Ok(None);
            }
            if word == b"radius".as_slice() {
                let radius = last_number(rest)?;
                return Ok(Some(radius));
            }
            Err(Refusal::Wrong)
        }
    }
}

#[tactic(auto, unfolding(crate::specs::Words::heads_in))]
fn heads(kind: BlockKind, words: Option<&[u8]>) -> Result<Said, Refusal>
    ensures { Gives line_said result (heads_in kind (left SPACE words.entry)) }
{
    let (root, rest) = next_number(words, SPACE)?;
    let radius = radius(rest)?;
    Ok(Said::Heads(kind, root, radius))
}

#[tactic(auto, unfolding(crate::specs::Words::row_in))]
fn row(words: Option<&[u8]>) -> Result<Said, Refusal>
    ensures { Gives line_said result (row_in (left SPACE words.entry)) }
{
    let (vertex, rest) = next_number(words, SPACE)?;
    let (label, rest) = next_number(rest, SPACE)?;
    let (arc, rest) = next_number(rest, SPACE)?;
    ended(rest, SPACE)?;
    Ok(Said::Row(BlockRow { vertex, label, arc }))
}

#[tactic(auto, unfolding(crate::specs::Words::optimum_in))]
fn optimum(alloc: Global, words: Option<&[u8]>) -> Result<Said, Refusal>
    ensures { Gives line_said result (optimum_in (left SPACE words.entry)) }
{
    let (length, rest) = next_number(words, SPACE)?;
    let arcs = last_numbers(alloc, rest)?;
    Ok(Said::Optimum(length, arcs))
}

#[tactic(auto, unfolding(crate::specs::Words::route_in))]
fn route(alloc: Global, words: Option<&[u8]>) -> Result<Said, Refusal>
    ensures { Gives line_said result (route_in (left SPACE words.entry)) }
{
    let (via, rest) = next_number(words, SPACE)?;
    let (length, rest) = next_number(rest, SPACE)?;
    let (shared, rest) = next_number(rest, SPACE)?;
    let (plateau, rest) = next_number(rest, SPACE)?;
    let (rank, rest) = next_number(rest, SPACE)?;
    let arcs = last_numbers(alloc, rest)?;
    Ok(Said::Route(CertRoute {
        via,
        length,
        shared,
        plateau,
        rank,
        arcs,
    }))
}

/// Two places and a walk.
#[tactic(auto, unfolding(crate::specs::Words::walk_in))]
fn walk(alloc: Global, words: Option<&[u8]>) -> Result<(u64, u64, NumberList), Refusal>
    ensures { Gives (λ x. x) result (walk_in (left SPACE words.entry)) }
{
    let (first, rest) = next_number(words, SPACE)?;
    let (last, rest) = next_number(rest, SPACE)?;
    let detour = last_numbers(alloc, rest)?;
    Ok((first, last, detour))
}

/// The reason of a vertex.
#[tactic(auto, unfolding(crate::specs::Words::reason_in))]
fn reason(alloc: Global, words: Option<&[u8]>) -> Result<Reason, Refusal>
    ensures { Gives (λ r. r) result (reason_in (left SPACE words.entry)) }
{
    match words {
        None => Err(Refusal::Wrong),
        Some(bytes) => {
            let (word, rest) = cut(bytes, SPACE);
            reason_after(alloc, word, rest)
        }
    }
}

/// The reason of a vertex, by its first word and those after it.
#[tactic(auto, unfolding(crate::specs::Words::reason_after))]
fn reason_after(alloc: Global, word: &[u8], rest: Option<&[u8]>) -> Result<Reason, Refusal>
    ensures { Gives (λ r. r) result (reason_after word.now (left SPACE rest.entry)) }
{
    if word == b"optimum".as_slice() {
        ended(rest, SPACE)?;
        return Ok(Reason::Optimum);
    }
    if word == b"shared".as_slice() {
        return Ok(Reason::Shared(last_number(rest)?));
    }
    if word == b"local".as_slice() {
        let (first, last, detour) = walk(alloc, rest)?;
        return Ok(Reason::Local {
            first,
            last,
            detour,
        });
    }
    if word == b"stretch".as_slice() {
        let (first, last, detour) = walk(alloc, rest)?;
        return Ok(Reason::Stretch {
            first,
            last,
            detour,
        });
    }
    if word == b"listed".as_slice() {
        return Ok(Reason::Listed(last_number(rest)?));
    }
    Err(Refusal::Wrong)
}

#[tactic(auto, unfolding(crate::specs::Words::via_in))]
fn via(alloc: Global, words: Option<&[u8]>) -> Result<Said, Refusal>
    ensures { Gives line_said result (via_in (left SPACE words.entry)) }
{
    let (vertex, rest) = next_number(words, SPACE)?;
    let reason = reason(alloc, rest)?;
    Ok(Said::Via(ViaRow { vertex, reason }))
}

/// A line of one word.
#[tactic(auto, unfolding(crate::specs::Words::sole_in))]
fn sole(word: &[u8], rest: Option<&[u8]>) -> Result<Said, Refusal>
    ensures { Gives line_said result (sole_in word.now (left SPACE rest.entry)) }
{
    ended(rest, SPACE)?;
    if word == b"end".as_slice() {
        return Ok(Said::End);
    }
    if word == b"none".as_slice() {
        return Ok(Said::NoneFound);
    }
    if word == b"done".as_slice() {
        return Ok(Said::Done);
    }
    Err(Refusal::Wrong)
}

/// A line by its first word and those after it.
#[tactic(auto, unfolding(crate::specs::Words::line_after))]
fn line_after(alloc: Global, word: &[u8], rest: Option<&[u8]>) -> Result<Said, Refusal>
    ensures { Gives line_said result (line_after word.now (left SPACE rest.entry)) }
{
    if word == b"row".as_slice() {
        return row(rest);
    }
    if word == b"via".as_slice() {
        return via(alloc, rest);
    }
    if word == b"route".as_slice() {
        return route(alloc, rest);
    }
    if word == b"from".as_slice() {
        return heads(BlockKind::From, rest);
    }
    if word == b"to".as_slice() {
        return heads(BlockKind::To, rest);
    }
    if word == b"optimum".as_slice() {
        return optimum(alloc, rest);
    }
    if word == b"cert".as_slice() {
        return version(rest);
    }
    if word == b"graph".as_slice() {
        return counts(rest);
    }
    if word == b"query".as_slice() {
        return asks(rest);
    }
    sole(word, rest)
}

/// What a raw line says, where it is a line of a certificate.
///
/// It takes memory for the numbers of a list alone, and time linear in the line.
#[tactic(auto, unfolding(crate::specs::Words::line_of))]
pub(crate) fn line_of(alloc: Global, raw: &[u8]) -> Result<Said, Refusal>
    ensures { Gives line_said result (line_of raw.now) }
{
    let (word, rest) = cut(raw, SPACE);
    line_after(alloc, word, rest)
}
