ghost use Rattle.std.specs.Prelude.{◌≡◌, ◌<◌, ◌^◌, ℕ, IfOk};
ghost use Rattle.road_model.specs.Walk.{IsWalkFrom, walk_length};
ghost use Rattle.road_model.specs.Places.{trail_of};

use crate::{ArcNo, Items, Network, NoMemory, SumList, Vertex, VertexList};
use std::alloc::Global;

/// The vertices at the places of a walk, and the length up to each.
#[derive(Debug, Drop)]
pub struct Trail {
    pub vertices: VertexList,
    pub sums: SumList,
}

impl Trail {
    /// The trail of a walk from a vertex. It takes 12 bytes a place, in time linear in the arcs.
    pub fn of<N: Network>(
        alloc: Global,
        net: &N,
        from: Vertex,
        arcs: &[ArcNo],
    ) -> Result<Trail, NoMemory>
        requires walk { IsWalkFrom (N.graph net.now) from arcs.now }
        requires short { walk_length (N.graph net.now) arcs.now < 2 ^ 58 }
        ensures { IfOk result (λ t. t ≡ trail_of (N.graph net.now) from arcs.now) }
    {
        let mut vertices = Vec::with_capacity(alloc, arcs.len() + 1)?;
        let mut sums = Vec::with_capacity(alloc, arcs.len() + 1)?;
        let mut at = from;
        let mut sum = 0u64;
        for a in arcs {
            vertices.push(at)?;
            sums.push(sum)?;
            let Some(row) = net.arc(*a) else {
                unreachable!()
            };
            at = row.head;
            sum += row.length;
        }
        vertices.push(at)?;
        sums.push(sum)?;
        Ok(Trail {
            vertices: Items::from_vec(vertices),
            sums: Items::from_vec(sums),
        })
    }
}
