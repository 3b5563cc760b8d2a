//! Graphs that are drawn, or made of one shape.

ghost use Rattle.std.specs.Prelude.{◌≤◌};
ghost use Rattle.road_model.specs.Graph.{IsVertex};

use rand_core::utils::NextWord;
use rand_xoshiro::SplitMix64;
use road_model::Vertex;
use std::alloc::{AllocError, Global};

/// Tail, head and length of an arc.
pub type Arc = (u32, u32, u64);

/// The shape of a large graph. Its arcs lead both ways.
#[derive(Clone, Copy, Debug)]
pub enum Shape {
    /// Each vertex is joined with the next one.
    Path,
    /// The first vertex is joined with each other one.
    Leaves,
    /// Each two vertices are joined.
    Clique,
    /// Each vertex is joined with the next one, and with the one 60 further on.
    Lattice,
}

/// The vertex of the next word.
pub fn drawn(words: &mut SplitMix64, vertices: u32) -> Vertex
    requires { 1 ≤ vertices }
    ensures { IsVertex vertices result }
{
    Vertex(1 + (words.next_word() % u64::from(vertices)) as u32)
}

/// Random arcs: loops, parallel ones and ties among them, and unreachable parts where they are few.
pub fn random_arcs(
    alloc: Global,
    words: &mut SplitMix64,
    vertices: u32,
    count: u32,
    longest: u32,
) -> Result<Vec<Arc>, AllocError>
    requires some { 1 ≤ vertices }
    requires long { 1 ≤ longest }
{
    let mut arcs = Vec::new(alloc);
    for _arc in 0..count {
        let tail = drawn(words, vertices).number();
        let head = drawn(words, vertices).number();
        arcs.push((tail, head, 1 + words.next_word() % u64::from(longest)))?;
    }
    Ok(arcs)
}

// An arc each way.
fn join(arcs: &mut Vec<Arc>, u: u32, v: u32, length: u64) -> Result<(), AllocError> {
    arcs.push((u, v, length))?;
    arcs.push((v, u, length))?;
    Ok(())
}

/// The arcs of a graph of this shape, all as long.
pub fn arcs_of(
    alloc: Global,
    shape: Shape,
    vertices: u32,
    length: u64,
) -> Result<Vec<Arc>, AllocError>
    requires { vertices ≤ 33554432 }
{
    let mut arcs = Vec::new(alloc);
    for v in 1..vertices {
        match shape {
            Shape::Path => join(&mut arcs, v, v + 1, length)?,
            Shape::Leaves => join(&mut arcs, 1, v + 1, length)?,
            Shape::Clique => {
                for w in v + 1..vertices + 1 {
                    join(&mut arcs, v, w, length)?;
                }
            }
            Shape::Lattice => {
                join(&mut arcs, v, v + 1, length)?;
                if v + 60 <= vertices {
                    join(&mut arcs, v, v + 60, length)?;
                }
            }
        }
    }
    Ok(arcs)
}
