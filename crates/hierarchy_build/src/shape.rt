ghost use Rattle.std.specs.Prelude.{◌≡◌, ◌<◌, ◌≤◌, ◌+◌, ◌^◌, ℕ, [], length, slice_index, All, Contains, IfOk, OnOk};
ghost use Rattle.road_model.specs.Graph.{IsArc, rows_of};
ghost use Rattle.contraction_order.specs.Order.{IsOrder};
ghost use Rattle.hierarchy_build.specs.Runs.{IsRanked};
ghost use Rattle.hierarchy_build.specs.Hierarchy.{IsShapeOf};
ghost use Rattle.hierarchy_build.specs.Waits.{waiting, IsInside, Waits, IsDue, IsRun, IsSent, ShapeSoFar};

use crate::pending::Pending;
use contraction_order::Order;
use forward_star::Star;
use road_model::{ArcRow, Items, NoMemory, Vertex, VertexList};
use std::alloc::{AllocError, Global};

/// The links of a hierarchy without their lengths, which every version of its graph shares.
///
/// The vertices are ranked in the order in which they are contracted, from 0. The higher neighbours of a rank
/// stand in one run, ascending. It takes 12 bytes a vertex and 4 bytes a link.
#[derive(Debug, Drop)]
pub struct Shape {
    /// The vertex of each rank.
    pub order: VertexList,
    /// The rank of each vertex, by its number.
    pub rank: Items<u32>,
    /// The place at which the run of each rank begins, and at last the end of all.
    pub first: Items<u32>,
    /// The higher rank of each link.
    pub head: Items<u32>,
}

// The rank of each vertex, by its number.
fn ranks_of(alloc: Global, order: &[Vertex]) -> Result<Vec<u32>, NoMemory>
    requires few { length order.now < 2 ^ 31 }
    requires order { IsOrder (length order.now) order.now }
    ensures { IfOk result (λ rank. IsRanked (length order.now) order.now rank.items) }
{
    let mut rank = vec![in alloc; 0u32; order.len() + 1]?;
    for (r, v) in order.iter().enumerate() {
        rank[v.number() as usize] = r as u32;
    }
    Ok(rank)
}

// Lets the higher end of an arc wait at the lower one.
fn wait_arc(pending: &mut Pending, rank: &[u32], arc: ArcRow) -> Result<(), NoMemory>
    requires inside { IsInside (length pending.old) pending.old }
    requires tail_named { arc.tail < length rank.now }
    requires head_named { arc.head < length rank.now }
    requires tail { slice_index rank.now arc.tail < length pending.old }
    requires head { slice_index rank.now arc.head < length pending.old }
    ensures inside { OnOk result (IsInside (length pending.old) pending.new) }
    ensures kept { OnOk result ((b y : ℕ) → Contains (waiting pending.old b) y → Contains (waiting pending.new b) y) }
    ensures due { OnOk result (IsDue 0 rank.now [] [] pending.new arc) }
{
    let tail = rank[arc.tail.number() as usize];
    let head = rank[arc.head.number() as usize];
    if tail < head {
        pending.put(tail as usize, head)?;
        return Ok(());
    }
    if head < tail {
        pending.put(head as usize, tail)?;
    }
    Ok(())
}

// The same for every arc.
fn wait_arcs(
    alloc: Global,
    order: &[Vertex],
    rank: &[u32],
    star: &Star,
) -> Result<Pending, NoMemory>
    requires ranked { IsRanked (length order.now) order.now rank.now }
    requires arcs { All (IsArc (length order.now)) (rows_of star.now) }
    ensures inside { IfOk result (λ p. IsInside (length order.now) p) }
    ensures due { IfOk result (λ p. All (IsDue 0 rank.now [] [] p) (rows_of star.now)) }
{
    let mut pending = Pending::new(alloc, order.len())?;
    for place in 0..star.arc_count() as usize {
        let arc = star.row(place);
        wait_arc(&mut pending, rank, arc)?;
    }
    Ok(pending)
}

// Runs that are laid out, and the ranks that wait for those to come.
#[derive(Drop)]
struct Layout {
    first: Vec<u32>,
    head: Vec<u32>,
    pending: Pending,
}

// Ascending, and each once.
fn into_run(heads: &mut Vec<u32>)
    ensures { IsRun heads.old.items heads.new.items }
{
    heads.sort_unstable();
    heads.dedup();
}

// Lets all ranks of a run but the first wait at the first.
fn send(pending: &mut Pending, run: &[u32]) -> Result<(), NoMemory>
    requires { (k : ℕ) → k < length run.now → slice_index run.now k < length pending.old }
    ensures { OnOk result (IsSent run.now (length run.now) (slice_index run.now 0) pending.old pending.new) }
{
    for i in 1..run.len() {
        pending.put(run[0] as usize, run[i])?;
    }
    Ok(())
}

// Lays out the run of `v`, and says how many ranks stand in it.
fn add_run(alloc: Global, layout: &mut Layout, ranks: usize, v: usize) -> Result<usize, NoMemory>
    requires so_far { ShapeSoFar ranks v layout.old.first.items layout.old.head.items layout.old.pending }
    requires rank { v < ranks }
    ensures so_far { OnOk result (ShapeSoFar ranks (v + 1) layout.new.first.items layout.new.head.items layout.new.pending) }
    ensures waits { OnOk result ((a b : ℕ) → Waits v layout.old.first.items layout.old.head.items layout.old.pending a b
        → Waits (v + 1) layout.new.first.items layout.new.head.items layout.new.pending a b) }
    ensures few { IfOk result (λ k. k < 2 ^ 32) }
{
    let mut run = layout.pending.take(alloc, v);
    into_run(&mut run);
    let end = layout.head.len() + run.len();
    if end > 4294967295 {
        return Err(AllocError);
    }
    layout.head.extend_from_slice(run.as_slice())?;
    layout.first.push(end as u32)?;
    send(&mut layout.pending, run.as_slice())?;
    Ok(run.len())
}

// Lays out every run. There is no memory for more triangles than 2^27 and 2048 a vertex.
fn lay_out(alloc: Global, ranks: usize, pending: Pending) -> Result<Layout, NoMemory>
    requires inside { IsInside ranks pending }
    requires few { ranks < 2 ^ 31 }
    ensures so_far { IfOk result (λ l. ShapeSoFar ranks ranks l.first.items l.head.items l.pending) }
    ensures waits { IfOk result (λ l. (a b : ℕ) → Waits 0 [] [] pending a b → Waits ranks l.first.items l.head.items l.pending a b) }
{
    let mut first = Vec::with_capacity(alloc, ranks + 1)?;
    first.push(0u32)?;
    let mut layout = Layout {
        first,
        head: Vec::new(alloc),
        pending,
    };
    let most = 134217728 + 2048 * ranks as u64;
    let mut triangles = 0u64;
    for v in 0..ranks {
        let width = add_run(alloc, &mut layout, ranks, v)? as u64;
        triangles += width * width / 2;
        if triangles > most {
            return Err(AllocError);
        }
    }
    Ok(layout)
}

impl Shape {
    /// The shape for an order of contraction. `Err` also where it would have more than 4294967295 links, or
    /// more triangles than 2^27 and 2048 a vertex: then a search takes less time than a hierarchy.
    pub(crate) fn build(alloc: Global, star: &Star, order: Order) -> Result<Shape, NoMemory>
        requires { IsOrder star.now.vertices order.vertices }
        ensures { IfOk result (λ s. IsShapeOf star.now s) }
    {
        let Order { vertices: order } = order;
        star.within_limits();
        let rank = ranks_of(alloc, order.as_slice())?;
        let pending = wait_arcs(alloc, order.as_slice(), rank.as_slice(), star)?;
        let Layout { first, head, .. } = lay_out(alloc, order.len(), pending)?;
        Ok(Shape {
            order,
            rank: Items::from_vec(rank),
            first: Items::from_vec(first),
            head: Items::from_vec(head),
        })
    }
}
