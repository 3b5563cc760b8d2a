//! Pages of a plan.

ghost use Rattle.road_model.specs.Answers.{IsPage};

use road_model::PageSpan;

/// The page of at most `size` of `total` items that begins after `offset` of them, or after all where they are
/// fewer. Item 0 is the optimum of a plan, and item `k` its `k`-th alternative. Takes no memory.
pub fn page(total: u64, size: u64, offset: u64) -> PageSpan
    ensures { IsPage total size offset result }
{
    let first = offset.min(total);
    let count = size.min(total - first);
    PageSpan {
        first,
        count,
        more: first + count < total,
    }
}
