//! The places of a path, with exact lengths.

ghost use Rattle.std.specs.Prelude.{◌≡◌, ◌<◌, ◌^◌, length, IfOk};
ghost use Rattle.road_model.specs.Places.{trail_of, vertex_at, between};

use crate::arcs::{head_of, length_of};
use forward_star::Star;
use road_model::NoMemory;
use std::alloc::Global;
use std::marker::Model;

/// The vertices at the places of a path, and the lengths up to them.
///
/// A path has fewer than 2^63 arcs, each shorter than 2^32: so 128 bits hold each sum, and its product with a ratio's
/// number, which is at most 8000000.
#[derive(Drop)]
pub(crate) struct PathPlaces {
    pub(crate) vertices: Vec<u64>,
    pub(crate) sums: Vec<u128>,
}

impl Model for PathPlaces {
    ghost use Rattle.std.specs.Prelude.{◌<◌, ◌^◌, All};
    ghost use Rattle.road_model.specs.declared.trail.Trail.{Trail};

    ghost Value = { Trail };

    ghost view = { λ p. record { vertices = p.vertices.items; sums = p.sums.items } };

    ghost invariant = { λ p. All (λ s. s < 2 ^ 96) p.sums.items };
}

/// The places of a path from a vertex. An arc that isn't there has the head 0 and the length 0.
///
/// It takes 24 bytes a place, in time linear in the arcs.
pub(crate) fn places_of(
    alloc: Global,
    star: &Star,
    from: u64,
    arcs: &[u64],
) -> Result<PathPlaces, NoMemory>
    ensures { IfOk result (λ p. p ≡ trail_of star.now from arcs.now) }
{
    let mut vertices = Vec::new(alloc);
    let mut sums = Vec::new(alloc);
    let mut at = from;
    let mut sum = 0u128;
    for a in arcs {
        vertices.push(at)?;
        sums.push(sum)?;
        at = head_of(star, *a);
        sum += length_of(star, *a) as u128;
    }
    vertices.push(at)?;
    sums.push(sum)?;
    Ok(PathPlaces { vertices, sums })
}

impl PathPlaces {
    /// How many places there are: one more than arcs.
    pub(crate) fn count(&self) -> usize
        ensures { result ≡ length self.now.vertices }
    {
        self.vertices.len()
    }

    /// The vertex at a place.
    pub(crate) fn vertex(&self, place: usize) -> u64
        requires { place < length self.now.vertices }
        ensures { result ≡ vertex_at self.now place }
    {
        self.vertices[place]
    }

    /// The length from a place to another.
    pub(crate) fn between(&self, first: usize, last: usize) -> u128
        requires first { first < length self.now.sums }
        requires last { last < length self.now.sums }
        ensures value { result ≡ between self.now first last }
        ensures low { result < 2 ^ 96 }
    {
        self.sums[last].saturating_sub(self.sums[first])
    }
}
