//! The query of a certificate.

ghost use Rattle.std.specs.Prelude.{◌≡◌, ◌≤◌, IfSome, MatchOption};
ghost use Rattle.road_model.specs.Fraction.{IsRatio};
ghost use Rattle.road_model.specs.Queries.{query_of, ratio};
ghost use Rattle.recheck.specs.Checks.{IsQuery};

use crate::row_tests::vertex_in;
use forward_star::Star;
use road_model::{CursorQuery, Query, Ratio};

/// The ratio of these numbers, where it is at most `cap`.
fn ratio_in(numbers: (u64, u64), cap: u64) -> Option<Ratio>
    requires { cap ≤ 4 }
    ensures value { MatchOption result (IsRatio cap (ratio numbers.0 numbers.1) → ⊥) (λ r. r ≡ ratio numbers.0 numbers.1) }
    ensures inside { IfSome result (λ r. IsRatio cap (ratio numbers.0 numbers.1)) }
{
    match Ratio::new(numbers.0, numbers.1, cap) {
        Ok(ratio) => Some(ratio),
        Err(_) => None,
    }
}

/// The query of these numbers, where its vertices are the graph's and its ratios are in range.
pub(crate) fn query_in(star: &Star, numbers: &CursorQuery) -> Option<Query>
    ensures value { MatchOption result (IsQuery star.now (query_of numbers.now) → ⊥) (λ q. q ≡ query_of numbers.now) }
    ensures inside { IfSome result (λ q. IsQuery star.now (query_of numbers.now)) }
{
    let from = vertex_in(star.vertices(), numbers.from)?;
    let to = vertex_in(star.vertices(), numbers.to)?;
    let gamma = ratio_in(numbers.gamma, 1)?;
    let alpha = ratio_in(numbers.alpha, 1)?;
    let epsilon = ratio_in(numbers.epsilon, 4)?;
    Some(Query {
        from,
        to,
        gamma,
        alpha,
        epsilon,
    })
}
