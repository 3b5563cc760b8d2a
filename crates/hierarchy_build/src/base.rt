//! Lengths of links lowered to those of arcs.

ghost use Rattle.std.specs.Prelude.{◌≡◌, ◌<◌, ◌≤◌, ◌+◌, ℕ, length, slice_index, All};
ghost use Rattle.road_model.specs.Graph.{IsVertex, rows_of};
ghost use Rattle.hierarchy_build.specs.Runs.{IsPlaced};
ghost use Rattle.hierarchy_build.specs.Lengths.{no_link, CanPush, KeepsArc, KeepsArcs, IsWithin, AreTight};

use crate::push::{lower, place_of, push_triangles};
use forward_star::Star;
use road_model::ArcRow;

// Lowers the link between the ends of an arc to its length.
fn lower_arc(
    ranks: usize,
    rank: &[u32],
    first: &[u32],
    head: &[u32],
    arc: ArcRow,
    up: &mut [u64],
    down: &mut [u64],
)
    requires can { CanPush ranks first.now head.now up.old down.old }
    requires within { IsWithin ranks rank.now arc }
    requires placed { IsPlaced rank.now first.now head.now arc }
    ensures { KeepsArc ranks rank.now first.now head.now arc up.old down.old up.new down.new }
{
    let from = rank[arc.tail.number() as usize];
    let to = rank[arc.head.number() as usize];
    if from < to {
        let k = place_of(head, first[from as usize] as usize, to);
        lower(up, k, arc.length);
    } else if to < from {
        let k = place_of(head, first[to as usize] as usize, from);
        lower(down, k, arc.length);
    }
}

// The same for each arc.
fn lower_arcs(
    ranks: usize,
    rank: &[u32],
    first: &[u32],
    head: &[u32],
    star: &Star,
    up: &mut [u64],
    down: &mut [u64],
)
    requires can { CanPush ranks first.now head.now up.old down.old }
    requires within { All (IsWithin ranks rank.now) (rows_of star.now) }
    requires placed { All (IsPlaced rank.now first.now head.now) (rows_of star.now) }
    ensures { KeepsArcs ranks rank.now first.now head.now (rows_of star.now) up.old down.old up.new down.new }
{
    for place in 0..star.arc_count() as usize {
        let arc = star.row(place);
        lower_arc(ranks, rank, first, head, arc, up, down);
    }
}

/// Lowers the lengths of links to those of arcs, and then to those of two links at a lower rank.
pub(crate) fn lower_all(
    ranks: usize,
    rank: &[u32],
    first: &[u32],
    head: &[u32],
    star: &Star,
    up: &mut [u64],
    down: &mut [u64],
)
    requires can { CanPush ranks first.now head.now up.old down.old }
    requires within { All (IsWithin ranks rank.now) (rows_of star.now) }
    requires placed { All (IsPlaced rank.now first.now head.now) (rows_of star.now) }
    ensures arcs { KeepsArcs ranks rank.now first.now head.now (rows_of star.now) up.old down.old up.new down.new }
    ensures tight { AreTight ranks first.now head.now up.new down.new ranks }
{
    lower_arcs(ranks, rank, first, head, star, up, down);
    push_triangles(ranks, first, head, up, down);
}
