//! The arcs of a grid, street by street.

ghost use Rattle.std.specs.Prelude.{◌≡◌, ◌<◌, [], ◌∷◌, IfOk, OnOk};
ghost use Rattle.grid_maker.specs.Grid.{both_ways, cell_ends, grid_ends, lower_ends, right_ends, row_ends};
ghost use Rattle.grid_maker.specs.Making.{AddsStreets, IsEmpty};

use crate::sides::Sides;
use rand_core::SeedableRng;
use rand_core::utils::NextWord;
use rand_xoshiro::SplitMix64;
use road_model::{ArcRow, Vertex};
use std::alloc::{AllocError, Global};

/// The arcs so far, and the generator that the lengths of further ones come from.
#[derive(Drop)]
pub struct Streets {
    pub arcs: Vec<ArcRow>,
    pub words: SplitMix64,
}

impl Streets {
    /// No arc yet, with room for all arcs of a grid.
    pub fn new(alloc: Global, seed: u64, sides: Sides) -> Result<Streets, AllocError>
        ensures { IfOk result (IsEmpty seed) }
    {
        Ok(Streets {
            arcs: Vec::with_capacity(alloc, sides.arcs() as usize)?,
            words: SplitMix64::from_seed(seed.to_le_bytes()),
        })
    }

    // Adds an arc, whose length the next word gives.
    fn push_arc(&mut self, tail: Vertex, head: Vertex) -> Result<(), AllocError>
        ensures { OnOk result (AddsStreets self.old self.new ((tail, head) ∷ [])) }
    {
        let word = self.words.next_word();
        self.arcs.push(ArcRow {
            tail,
            head,
            length: 1 + word % 1000,
        })?;
        Ok(())
    }

    // Adds the two arcs of a street.
    fn push_street(&mut self, from: Vertex, to: Vertex) -> Result<(), AllocError>
        ensures { OnOk result (AddsStreets self.old self.new (both_ways from to)) }
    {
        self.push_arc(from, to)?;
        self.push_arc(to, from)?;
        Ok(())
    }

    // Adds the street to the right neighbour, where there is one.
    fn push_right(&mut self, sides: Sides, row: u32, column: u32) -> Result<(), AllocError>
        requires row { row < sides.height }
        requires column { column < sides.width }
        ensures { OnOk result (AddsStreets self.old self.new (right_ends sides.width row column)) }
    {
        if column + 1 < sides.width {
            return self.push_street(sides.vertex(row, column), sides.vertex(row, column + 1));
        }
        Ok(())
    }

    // Adds the street to the lower neighbour, where there is one.
    fn push_lower(&mut self, sides: Sides, row: u32, column: u32) -> Result<(), AllocError>
        requires row { row < sides.height }
        requires column { column < sides.width }
        ensures { OnOk result (AddsStreets self.old self.new (lower_ends sides.width sides.height row column)) }
    {
        if row + 1 < sides.height {
            return self.push_street(sides.vertex(row, column), sides.vertex(row + 1, column));
        }
        Ok(())
    }

    // Adds the streets of the vertex in this row and column.
    fn push_cell(&mut self, sides: Sides, row: u32, column: u32) -> Result<(), AllocError>
        requires row { row < sides.height }
        requires column { column < sides.width }
        ensures { OnOk result (AddsStreets self.old self.new (cell_ends sides.width sides.height row column)) }
    {
        self.push_right(sides, row, column)?;
        self.push_lower(sides, row, column)?;
        Ok(())
    }

    // Adds the streets of a row.
    fn push_row(&mut self, sides: Sides, row: u32) -> Result<(), AllocError>
        requires { row < sides.height }
        ensures { OnOk result (AddsStreets self.old self.new (row_ends sides.width sides.height row)) }
    {
        for column in 0..sides.width {
            self.push_cell(sides, row, column)?;
        }
        Ok(())
    }

    /// Adds all streets of a grid.
    pub fn push_grid(&mut self, sides: Sides) -> Result<(), AllocError>
        ensures { OnOk result (AddsStreets self.old self.new (grid_ends sides.width sides.height)) }
    {
        for row in 0..sides.height {
            self.push_row(sides, row)?;
        }
        Ok(())
    }
}
