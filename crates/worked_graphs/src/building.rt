ghost use Rattle.std.specs.Prelude.{◌≡◌, IfOk};
ghost use Rattle.worked_graphs.specs.Rows.{all_rows};

use forward_star::Star;
use road_model::{ArcRow, ArcRows, GraphFile, MAX_ARCS, MAX_LENGTH, MAX_VERTICES, Vertex};
use std::alloc::Global;
use std::test::Fail;

/// The graph of so many vertices and these arcs (tail, head, length). One outside the limits fails the test.
pub fn graph_of(alloc: Global, vertices: u32, arcs: &[(u32, u32, u64)]) -> Result<GraphFile, Fail>
    ensures { IfOk result (λ g. g ≡ record { vertices = vertices; arcs = all_rows arcs.now }) }
{
    if vertices > MAX_VERTICES || arcs.len() > MAX_ARCS as usize {
        return Err(Fail::new("a graph outside the limits"));
    }
    let mut rows = ArcRows::new(alloc);
    for arc in arcs {
        let (tail, head, length) = *arc;
        let ends = tail >= 1 && tail <= vertices && head >= 1 && head <= vertices;
        if !ends || length < 1 || length > MAX_LENGTH {
            return Err(Fail::new("an arc outside the limits"));
        }
        rows.push(ArcRow {
            tail: Vertex(tail),
            head: Vertex(head),
            length,
        })?;
    }
    Ok(GraphFile::new(vertices, rows))
}

/// The star of the same graph. It fails as [`graph_of`] does.
pub fn star_of(alloc: Global, vertices: u32, arcs: &[(u32, u32, u64)]) -> Result<Star, Fail>
    ensures { IfOk result (λ s. s ≡ record { vertices = vertices; arcs = all_rows arcs.now }) }
{
    Ok(Star::build(alloc, graph_of(alloc, vertices, arcs)?)?)
}
