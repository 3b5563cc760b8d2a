//! Dijkstra's algorithm from one vertex.

ghost use Rattle.std.specs.Prelude.{◌^◌, IfOk};
ghost use Rattle.road_model.specs.Graph.{IsVertex, LengthsBelow};
ghost use Rattle.road_model.specs.Dist.{DistsBelow};
ghost use Rattle.label_setting.specs.Search.{IsTracked};
ghost use Rattle.tree_search.specs.Ball.{IsBounded, IsBall, IsFoundTo};

use crate::labels::Ball;
use crate::ordering::put_in_order;
use label_setting::{Goal, SearchMemory};
use road_model::{Network, NoMemory, Vertex};
use std::alloc::Global;
use std::mem;

/// A radius that no distance is above where all are below 2^58.
const UNBOUNDED: u64 = 288230376151711743;

/// Exactly the vertices whose distance from `root` exists and is at most the radius, all that can be reached
/// for none, each with its distance.
///
/// Time: what Dijkstra's algorithm takes within the ball, and 8 bytes a vertex of the network to lay the
/// labels out.
pub fn ball<N: Network>(
    alloc: Global,
    net: &N,
    root: Vertex,
    radius: Option<u64>,
) -> Result<Ball, NoMemory>
    requires inside { IsVertex (N.graph net.now).vertices root }
    requires short { LengthsBelow (N.graph net.now) (2 ^ 58) }
    requires bounded { IsBounded (N.graph net.now) radius }
    ensures { IfOk result (λ b. IsBall (N.graph net.now) root radius b) }
{
    let mut memory = SearchMemory::new(alloc);
    let ball = ball_in(alloc, &mut memory, net, root, radius)?;
    Ok(ball)
}

/// The ball that `ball` finds, in a memory that is taken for it; `Ball::into_memory` gives it back. An empty one
/// stays in its place, so that a search finds a memory there whether or not it was given back.
///
/// Takes what Dijkstra's algorithm takes within the ball, the time to take back the labels of the search before, and
/// that of a sort of the ball, or of a pass over all labels where about one vertex in 16 or more is in the ball;
/// 8 bytes a vertex of the network more only where the memory wasn't one of a network with as many vertices.
pub fn ball_in<N: Network>(
    alloc: Global,
    memory: &mut SearchMemory,
    net: &N,
    root: Vertex,
    radius: Option<u64>,
) -> Result<Ball, NoMemory>
    requires inside { IsVertex (N.graph net.now).vertices root }
    requires short { LengthsBelow (N.graph net.now) (2 ^ 58) }
    requires bounded { IsBounded (N.graph net.now) radius }
    requires tracked { IsTracked memory.old.labels.items memory.old.touched.items }
    ensures ball { IfOk result (λ b. IsBall (N.graph net.now) root radius b) }
    ensures tracked { IsTracked memory.new.labels.items memory.new.touched.items }
{
    memory.prepare(alloc, net.vertices())?;
    let goal = Goal {
        root: root.number(),
        target: 0,
        radius: radius.unwrap_or(UNBOUNDED),
    };
    let limit = memory.run(net, goal)?;
    put_in_order(&memory.labels, &mut memory.touched);
    let found = mem::replace(memory, SearchMemory::new(alloc));
    Ok(Ball::of(found, limit))
}

/// The distance from `root` to `target`; none exactly where no walk leads there. The memory's labels up to it
/// are the distances from `root` of all the vertices that are as near as that: `Labels::new` reads them.
///
/// The search stops when the target is settled. It takes what it visits, and the time to take back the labels of the
/// search before; 8 bytes a vertex of the network more only where the memory wasn't one of a network with as many
/// vertices.
pub fn labels_to<N: Network>(
    alloc: Global,
    memory: &mut SearchMemory,
    net: &N,
    root: Vertex,
    target: Vertex,
) -> Result<Option<u64>, NoMemory>
    requires inside { IsVertex (N.graph net.now).vertices root }
    requires target_inside { IsVertex (N.graph net.now).vertices target }
    requires short { LengthsBelow (N.graph net.now) (2 ^ 58) }
    requires near { DistsBelow (N.graph net.now) (2 ^ 58) }
    requires tracked { IsTracked memory.old.labels.items memory.old.touched.items }
    ensures found { IfOk result (λ found. IsFoundTo (N.graph net.now) root target memory.new.labels.items found) }
    ensures tracked { IsTracked memory.new.labels.items memory.new.touched.items }
{
    memory.prepare(alloc, net.vertices())?;
    let goal = Goal {
        root: root.number(),
        target: target.number(),
        radius: UNBOUNDED,
    };
    let limit = memory.run(net, goal)?;
    if memory.labels[target.number() as usize] > limit {
        return Ok(None);
    }
    Ok(Some(limit))
}
