ghost use Rattle.std.specs.Prelude.{IfOk};
ghost use Rattle.contraction_order.specs.Order.{IsOrder};

use crate::quotient::by_difference;
use crate::taking::order_by;
use forward_star::Star;
use road_model::{NoMemory, VertexList};
use std::alloc::Global;

/// Every vertex once, the one that is contracted first at the head.
#[derive(Debug, Drop)]
pub struct Order {
    pub vertices: VertexList,
}

/// An order for the vertices of a graph: by least estimated edge difference, in a quotient graph, with the vertices
/// of each subtree together, and those with very many neighbours at the end. Which order it is changes how large a
/// hierarchy becomes, and no answer.
///
/// Its memory is linear in the arcs and in the links that it makes; the time is nearly so on road networks.
pub fn order_of(alloc: Global, star: &Star) -> Result<Order, NoMemory>
    ensures { IfOk result (λ o. IsOrder star.now.vertices o.vertices) }
{
    let wishes = by_difference(alloc, star)?;
    let order = order_by(alloc, star.vertices(), &wishes)?;
    Ok(order)
}
