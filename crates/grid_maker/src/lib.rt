//! Grids of two-way streets with lengths from a generator of words: large valid graphs from a number.
#![tactic(auto)]

mod sides;
mod streets;

ghost use Rattle.std.specs.Prelude.{◌≡◌, ◌↔◌, IfOk, IsErrOf};
ghost use Rattle.grid_maker.specs.Grid.{IsSide, grid, grid_ends, state_after};
ghost use Rattle.grid_maker.specs.declared.MakeFault.TheVariants.{NoMemory};

use crate::sides::Sides;
use crate::streets::Streets;
use rand_xoshiro::SplitMix64;
use road_model::{ArcRows, GraphFile};
use std::alloc::{AllocError, Global};
use std::error::Error;
use std::fmt;

/// Why no grid was made.
#[derive(Clone, Copy, Debug, PartialEq, Eq)]
pub enum MakeFault {
    /// A side is outside 1 to 4096.
    Size,
    /// Memory was refused.
    NoMemory,
}

impl fmt::Display for MakeFault {
    ghost use Rattle.std.specs.Prelude.{Some};
    ghost use Rattle.grid_maker.specs.Messages.{fault_text};

    ghost output = { λ fault. Some (fault_text fault) };

    fn fmt<W: fmt::Write>(&self, f: &mut fmt::Formatter<W>) -> fmt::Result {
        f.write_str(match self {
            MakeFault::Size => "a side is outside 1 to 4096",
            MakeFault::NoMemory => "out of memory",
        })
    }
}

impl Error for MakeFault {}

impl From<AllocError> for MakeFault {
    ghost from_gives = { λ _ e. e ≡ NoMemory };

    fn from(_fault: AllocError) -> MakeFault {
        MakeFault::NoMemory
    }
}

/// The grid of a seed: each vertex is joined to its right and its lower neighbour, there and back, by arcs 1 to
/// 1000 long. The same seed and sides give the same grid everywhere.
///
/// The lengths come from SplitMix64, the generator of Steele, Lea and Flood as `rand_xoshiro` gives it, begun at
/// the seed. It is handed back after its last word, so that more may be drawn from it.
///
/// It takes 16 bytes an arc, in one allocation, and the time of one word an arc.
pub fn make(
    alloc: Global,
    seed: u64,
    width: u32,
    height: u32,
) -> Result<(GraphFile, SplitMix64), MakeFault>
    ensures size { IsErrOf result MakeFault.Size ↔ (IsSide width × IsSide height → ⊥) }
    ensures grid { IfOk result (λ made. made.0 ≡ grid seed width height) }
    ensures beyond { IfOk result (λ made. made.1 ≡ state_after seed (grid_ends width height)) }
{
    let Some(sides) = Sides::new(width, height) else {
        return Err(MakeFault::Size);
    };
    let mut streets = Streets::new(alloc, seed, sides)?;
    streets.push_grid(sides)?;
    let Streets { arcs, words } = streets;
    let graph = GraphFile::new(sides.vertices(), ArcRows::from_vec(arcs));
    Ok((graph, words))
}

#[cfg(test)]
mod tests;
