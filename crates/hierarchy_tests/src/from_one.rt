//! Distances from one vertex, worked out as they are asked for.

ghost use Rattle.std.specs.Prelude.{◌≡◌, IfOk};

use crate::distances::MIXED;
use contraction_order::order_by;
use forward_star::Star;
use hierarchy_build::contract;
use hierarchy_query::{DistanceList, DistancesFrom};
use std::alloc::Global;
use std::sync::Arc;
use std::test::Fail;
use worked_graphs::{star_of, vertex_of};

// The distances from vertex 1, where the vertices of these numbers are contracted first.
fn distances_from_1(alloc: Global, star: &Star, wishes: &[u32]) -> Result<DistancesFrom, Fail>
    ensures { IfOk result (λ d. d.graph.vertices ≡ star.now.vertices) }
{
    let vertices = star.vertices();
    let first = vertex_of(vertices, 1)?;
    let order = order_by(alloc, vertices, wishes)?;
    let hierarchy = Arc::new(alloc, contract(alloc, star, order)?)?;
    let known = DistancesFrom::of(alloc, hierarchy, first)?;
    Ok(known)
}

// The distances from this vertex to others, one after another.
fn asked_from(
    alloc: Global,
    star: &Star,
    known: &mut DistancesFrom,
    from: u32,
    numbers: &[u32],
) -> Result<DistanceList, Fail>
    requires { known.old.graph.vertices ≡ star.now.vertices }
    ensures { known.new.graph.vertices ≡ star.now.vertices }
{
    let vertices = star.vertices();
    known.restart(vertex_of(vertices, from)?);
    let mut distances = DistanceList::new(alloc);
    for number in numbers {
        let to = vertex_of(vertices, *number)?;
        distances.push(known.distance(to)?)?;
    }
    Ok(distances)
}

// A source, targets, and the distances.
type Row = (u32, &'static [u32], &'static [Option<u64>]);

const ROWS: &[Row] = &[
    (
        1,
        &[6, 4, 5, 1, 6, 3],
        &[Some(20), Some(17), None, Some(0), Some(20), Some(11)],
    ),
    // 1 and 5 aren't reached, though the source before reached them
    (
        2,
        &[6, 1, 4, 2, 5],
        &[Some(10), None, Some(7), Some(0), None],
    ),
    (
        5,
        &[4, 1, 6, 5],
        &[
            Some(4294967312),
            Some(4294967295),
            Some(4294967315),
            Some(0),
        ],
    ),
    (
        6,
        &[1, 2, 3, 4, 5, 6],
        &[None, None, None, None, None, Some(0)],
    ),
];

// The first row with another answer, where the vertices of these numbers are contracted first and one value is
// asked from all sources.
fn wrong_row(
    alloc: Global,
    star: &Star,
    wishes: &[u32],
    rows: &[Row],
) -> Result<Option<usize>, Fail> {
    let mut known = distances_from_1(alloc, star, wishes)?;
    for (place, row) in rows.iter().enumerate() {
        let (from, targets, wanted) = *row;
        let distances = asked_from(alloc, star, &mut known, from, targets)?;
        if distances.as_slice() != wanted {
            return Ok(Some(place));
        }
    }
    Ok(None)
}

#[test]
fn tells_distances_from_one_source_after_another(rt: HostRuntime) -> Result<(), Fail> {
    let star = star_of(rt.alloc(), 6, MIXED)?;
    assert_eq!(rt; wrong_row(rt.alloc(), &star, &[], ROWS)?, None);
    assert_eq!(rt; wrong_row(rt.alloc(), &star, &[3, 1, 4], ROWS)?, None);
    Ok(())
}
