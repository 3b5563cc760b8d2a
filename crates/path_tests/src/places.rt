ghost use Rattle.std.specs.Prelude.{◌≡◌, ◌<◌, ◌≤◌, length, slice_index, IfOk};
ghost use Rattle.road_model.specs.Graph.{IsVertex};
ghost use Rattle.road_model.specs.Dist.{NoWalk};
ghost use Rattle.road_model.specs.Places.{vertex_at, between, IsDistAt};
ghost use Rattle.road_model.specs.ViaWalk.{AsksWithin};

use road_model::{NoMemory, Oracle, Trail};

/// The length of a walk from one of its places to another, later one. Takes no memory, in constant time.
pub fn length_between(trail: &Trail, first: u32, last: u32) -> u64
    requires start { first < length trail.now.sums }
    requires inside { last < length trail.now.sums }
    requires rise { slice_index trail.now.sums first ≤ slice_index trail.now.sums last }
    ensures { result ≡ between trail.now first last }
{
    let sums = trail.sums.as_slice();
    sums[last as usize] - sums[first as usize]
}

/// The distance between the vertices at two places of a walk. It asks one question.
pub fn distance_between<O: Oracle>(
    oracle: &mut O,
    trail: &Trail,
    first: u32,
    last: u32,
) -> Result<u64, NoMemory>
    requires start { first < length trail.now.vertices }
    requires inside { last < length trail.now.vertices }
    requires from { IsVertex (O.graph oracle.old).vertices (vertex_at trail.now first) }
    requires to { IsVertex (O.graph oracle.old).vertices (vertex_at trail.now last) }
    requires reached { NoWalk (O.graph oracle.old) (vertex_at trail.now first) (vertex_at trail.now last) → ⊥ }
    ensures answer { IfOk result (λ d. IsDistAt (O.graph oracle.old) trail.now first last d) }
    ensures same { O.graph oracle.new ≡ O.graph oracle.old }
    ensures asks { AsksWithin (O.asked oracle.old) (O.asked oracle.new) 1 }
{
    let vertices = trail.vertices.as_slice();
    let from = vertices[first as usize];
    let to = vertices[last as usize];
    let Some(distance) = oracle.distance(from, to)? else {
        unreachable!()
    };
    Ok(distance)
}
