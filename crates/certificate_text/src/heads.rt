//! The lines of a certificate that have no list of numbers, and the others up to their list, put into a [`Pending`].
//! The caller sees to it that they have room.

ghost use Rattle.std.specs.Prelude.{◌≡◌, ◌+◌, ◌≤◌, ◌++◌, length};
ghost use Rattle.road_io.specs.Buffers.{pending};
ghost use Rattle.road_io.specs.declared.buffers.TheConstants.{MOST_PENDING};
ghost use Rattle.certificate_text.specs.Texts.{Asks, Counts, Heads, Row, kind_word, radius_text, ratio_text, spaced};
ghost use Rattle.certificate_text.specs.Parts.{first_lines, optimum_head, reason_head, route_head, via_head, whole_line};

use crate::certificate::{Block, BlockKind, BlockRow, CertRoute, Certificate, Reason, ViaRow};
use road_io::Pending;
use road_model::CursorQuery;
use road_text::push_number;

/// The most bytes of a line up to its list of numbers, and of the first three lines together.
pub const HEAD_ROOM: usize = 256;

/// Puts a number after a space: at most 21 bytes.
pub fn push_spaced(text: &mut Pending, number: u64)
    requires { text.old.used + 21 ≤ MOST_PENDING }
    ensures text { pending text.new ≡ pending text.old ++ spaced number }
    ensures used { text.new.used ≤ text.old.used + 21 }
{
    text.push(b" ");
    push_number(text, number);
}

/// Puts a ratio after a space: at most 42 bytes.
fn push_ratio(text: &mut Pending, ratio: (u64, u64))
    requires { text.old.used + 42 ≤ MOST_PENDING }
    ensures text { pending text.new ≡ pending text.old ++ ratio_text ratio }
    ensures used { text.new.used ≤ text.old.used + 42 }
{
    push_spaced(text, ratio.0);
    text.push(b"/");
    push_number(text, ratio.1);
}

fn push_counts(text: &mut Pending, vertices: u64, arcs: u64)
    requires { text.old.used + 48 ≤ MOST_PENDING }
    ensures text { pending text.new ≡ pending text.old ++ whole_line (Counts vertices arcs) }
    ensures used { text.new.used ≤ text.old.used + 48 }
{
    text.push(b"graph");
    push_spaced(text, vertices);
    push_spaced(text, arcs);
    text.push(b"\n");
}

fn push_query(text: &mut Pending, query: &CursorQuery)
    requires { text.old.used + 174 ≤ MOST_PENDING }
    ensures { pending text.new ≡ pending text.old ++ whole_line (Asks query.now) }
{
    text.push(b"query");
    push_spaced(text, query.from);
    push_spaced(text, query.to);
    push_ratio(text, query.gamma);
    push_ratio(text, query.alpha);
    push_ratio(text, query.epsilon);
    text.push(b"\n");
}

/// Puts the lines before the first block.
pub fn push_first(text: &mut Pending, certificate: &Certificate)
    requires { text.old.used + HEAD_ROOM ≤ MOST_PENDING }
    ensures { pending text.new ≡ pending text.old ++ first_lines certificate.now }
{
    text.push(b"cert 1\n");
    push_counts(text, certificate.vertices, certificate.arcs);
    push_query(text, &certificate.query);
}

/// Puts the word of a direction.
fn push_kind(text: &mut Pending, kind: BlockKind)
    requires { text.old.used + 4 ≤ MOST_PENDING }
    ensures text { pending text.new ≡ pending text.old ++ kind_word kind }
    ensures used { text.new.used ≤ text.old.used + 4 }
{
    match kind {
        BlockKind::From => text.push(b"from"),
        BlockKind::To => text.push(b"to"),
    }
}

/// Puts a radius, or that there is no limit: at most 28 bytes.
fn push_radius(text: &mut Pending, radius: Option<u64>)
    requires { text.old.used + 28 ≤ MOST_PENDING }
    ensures text { pending text.new ≡ pending text.old ++ radius_text radius }
    ensures used { text.new.used ≤ text.old.used + 28 }
{
    match radius {
        Some(radius) => {
            text.push(b" radius");
            push_spaced(text, radius);
        }
        None => text.push(b" all"),
    }
}

/// Puts the first line of a block.
pub fn push_block_head(text: &mut Pending, block: &Block)
    requires { text.old.used + HEAD_ROOM ≤ MOST_PENDING }
    ensures { pending text.new ≡ pending text.old ++ whole_line (Heads block.now.kind block.now.root block.now.radius) }
{
    push_kind(text, block.kind);
    push_spaced(text, block.root);
    push_radius(text, block.radius);
    text.push(b"\n");
}

pub fn push_row(text: &mut Pending, row: &BlockRow)
    requires { text.old.used + HEAD_ROOM ≤ MOST_PENDING }
    ensures { pending text.new ≡ pending text.old ++ whole_line (Row row.now) }
{
    text.push(b"row");
    push_spaced(text, row.vertex);
    push_spaced(text, row.label);
    push_spaced(text, row.arc);
    text.push(b"\n");
}

/// Puts the line of an optimum up to its arcs.
pub fn push_optimum_head(text: &mut Pending, length: u64)
    requires { text.old.used + HEAD_ROOM ≤ MOST_PENDING }
    ensures { pending text.new ≡ pending text.old ++ optimum_head length }
{
    text.push(b"optimum");
    push_spaced(text, length);
}

/// Puts the line of an alternative up to its arcs.
pub fn push_route_head(text: &mut Pending, route: &CertRoute)
    requires { text.old.used + HEAD_ROOM ≤ MOST_PENDING }
    ensures { pending text.new ≡ pending text.old ++ route_head route.now }
{
    text.push(b"route");
    push_spaced(text, route.via);
    push_spaced(text, route.length);
    push_spaced(text, route.shared);
    push_spaced(text, route.plateau);
    push_spaced(text, route.rank);
}

/// Puts a word with two places after it: at most 50 bytes.
fn push_places(text: &mut Pending, word: &[u8], first: u64, last: u64)
    requires room { text.old.used + 50 ≤ MOST_PENDING }
    requires short { length word.now ≤ 8 }
    ensures { pending text.new ≡ pending text.old ++ (word.now ++ spaced first ++ spaced last) }
{
    text.push(word);
    push_spaced(text, first);
    push_spaced(text, last);
}

/// Puts a reason up to its detour: at most 50 bytes.
fn push_reason(text: &mut Pending, reason: &Reason)
    requires { text.old.used + 50 ≤ MOST_PENDING }
    ensures { pending text.new ≡ pending text.old ++ reason_head reason.now }
{
    match reason {
        Reason::Optimum => text.push(b" optimum"),
        Reason::Shared(sum) => {
            text.push(b" shared");
            push_spaced(text, *sum);
        }
        Reason::Local { first, last, .. } => push_places(text, b" local", *first, *last),
        Reason::Stretch { first, last, .. } => push_places(text, b" stretch", *first, *last),
        Reason::Listed(name) => {
            text.push(b" listed");
            push_spaced(text, *name);
        }
    }
}

/// Puts the line of a vertex near enough to both ends, up to its detour.
pub fn push_via_head(text: &mut Pending, via: &ViaRow)
    requires { text.old.used + HEAD_ROOM ≤ MOST_PENDING }
    ensures { pending text.new ≡ pending text.old ++ via_head via.now }
{
    text.push(b"via");
    push_spaced(text, via.vertex);
    push_reason(text, &via.reason);
}
