ghost use Rattle.std.specs.Prelude.{◌≡◌, IfOk};
ghost use Rattle.road_model.specs.Graph.{IsVertex};

use road_model::Vertex;
use std::test::Fail;

/// The vertex of this number, in a graph of so many vertices. A number that is none fails the test.
pub fn vertex_of(vertices: u32, number: u32) -> Result<Vertex, Fail>
    ensures same { IfOk result (λ v. v ≡ number) }
    ensures vertex { IfOk result (λ v. IsVertex vertices v) }
{
    if number < 1 || number > vertices {
        return Err(Fail::new("no such vertex"));
    }
    Ok(Vertex(number))
}
