//! Pages of an answer.

ghost use Rattle.std.specs.Prelude.{◌≡◌, ◌+◌, ◌<◌, ◌^◌, IfSome};
ghost use Rattle.desk_core.specs.Replies.{IsPageReply, more_in, more_of, numbers_in};
ghost use Rattle.desk_core.specs.SmallNumbers.{ArePairSmall, AreQuerySmall};
ghost use Rattle.route_ranking.specs.Cursors.{IsSmall};

use road_model::{Cursor, CursorQuery, PageSpan, Plan, Query, Ratio, Reply};
use route_ranking::page;

/// The numerator and the denominator of a ratio.
fn numbers_of(ratio: &Ratio) -> (u64, u64)
    ensures is { result ≡ (ratio.now.num, ratio.now.den) }
    ensures small { ArePairSmall result }
{
    (ratio.num(), ratio.den())
}

/// The numbers of a query.
pub(crate) fn query_numbers(query: &Query) -> CursorQuery
    ensures is { result ≡ numbers_in query.now }
    ensures small { AreQuerySmall result }
{
    CursorQuery {
        from: u64::from(query.from.number()),
        to: u64::from(query.to.number()),
        gamma: numbers_of(&query.gamma),
        alpha: numbers_of(&query.alpha),
        epsilon: numbers_of(&query.epsilon),
    }
}

/// The cursor of the page after a page, where items stand after it.
fn more(number: u64, query: &Query, size: u64, span: &PageSpan) -> Option<Cursor>
    requires { span.now.first + span.now.count < 10 ^ 19 }
    ensures is { result ≡ more_of number query.now size span.now }
    ensures small { number < 10 ^ 19 → size < 10 ^ 19 → IfSome result IsSmall }
{
    if !span.more {
        return None;
    }
    Some(Cursor {
        version: number,
        query: query_numbers(query),
        size,
        offset: span.first + span.count,
    })
}

/// The reply that shows a page of a plan, with the cursor of the page after it, or that no path exists. Takes no
/// memory. The text of such a cursor is read again as that cursor.
pub fn page_reply(number: u64, query: &Query, size: u64, offset: u64, plan: &Plan) -> Reply
    ensures page { IsPageReply number query.now size offset plan.now result }
    ensures small { number < 10 ^ 19 → size < 10 ^ 19 → IfSome (more_in result) IsSmall }
{
    match plan {
        Plan::NoPath => Reply::NoPath { number },
        Plan::Found { others, .. } => {
            let total = 1 + others.as_slice().len() as u64;
            let span = page(total, size, offset);
            let more = more(number, query, size, &span);
            Reply::Page { number, span, more }
        }
    }
}
