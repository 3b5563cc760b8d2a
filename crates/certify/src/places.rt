//! The place of a via.

ghost use Rattle.std.specs.Prelude.{◌≡◌, ◌≢◌, ◌<◌, ℕ, length, Contains};
ghost use Rattle.road_model.specs.Places.{vertex_at};

use road_model::{Trail, Vertex};

/// The first place with the vertex. Time linear in the places.
pub(crate) fn place_of(trail: &Trail, v: Vertex) -> usize
    requires { Contains trail.now.vertices v }
    ensures inside { result < length trail.now.vertices }
    ensures is { vertex_at trail.now result ≡ v }
    ensures first { (i : ℕ) → i < result → vertex_at trail.now i ≢ v }
{
    for (place, vertex) in trail.vertices.as_slice().iter().enumerate() {
        if vertex.number() == v.number() {
            return place;
        }
    }
    unreachable!()
}
