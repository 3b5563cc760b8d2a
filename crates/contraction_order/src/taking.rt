//! Lists of wished vertices, made into orders.

ghost use Rattle.std.specs.Prelude.{◌≡◌, ◌<◌, ◌-◌, ◌^◌, ℕ, length, slice_index, IfOk, OnOk};
ghost use Rattle.road_model.specs.Graph.{IsVertex};
ghost use Rattle.contraction_order.specs.Order.{IsOrder, AreTaken};

use crate::order::Order;
use road_model::{NoMemory, Vertex, VertexList};
use std::alloc::Global;

// Takes a vertex into the order, unless it is there already or is none.
fn take_vertex(taken: &mut [u8], order: &mut Vec<Vertex>, v: u32) -> Result<(), NoMemory>
    requires { AreTaken taken.old order.old.items }
    ensures size { length taken.new ≡ length taken.old }
    ensures kept { OnOk result (AreTaken taken.new order.new.items) }
    ensures there { OnOk result (IsVertex (length taken.old) v → slice_index taken.new (v - 1) ≡ 1) }
    ensures still { (k : ℕ) → slice_index taken.old k ≡ 1 → slice_index taken.new k ≡ 1 }
{
    if v == 0 || v as usize > taken.len() {
        return Ok(());
    }
    let at = v as usize - 1;
    if taken[at] != 0 {
        return Ok(());
    }
    taken[at] = 1;
    order.push(Vertex(v))?;
    Ok(())
}

/// The order that begins with these vertices, each where it is first named, and goes on with all others by
/// number. A number that is no vertex is passed over.
pub fn order_by(alloc: Global, vertices: u32, wishes: &[u32]) -> Result<Order, NoMemory>
    requires { vertices < 2 ^ 31 }
    ensures { IfOk result (λ o. IsOrder vertices o.vertices) }
{
    let mut taken = vec![in alloc; 0u8; vertices as usize]?;
    let mut order = Vec::with_capacity(alloc, vertices as usize)?;
    for v in wishes {
        take_vertex(&mut taken, &mut order, *v)?;
    }
    for v in 1..vertices + 1 {
        take_vertex(&mut taken, &mut order, v)?;
    }
    Ok(Order {
        vertices: VertexList::from_vec(order),
    })
}
