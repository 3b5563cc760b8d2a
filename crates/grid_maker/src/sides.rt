//! The sides of a grid.

ghost use Rattle.std.specs.Prelude.{◌≡◌, ◌≤◌, ◌*◌, ◌↔◌, IfSome, IsNone, IsTrue};
ghost use Rattle.grid_maker.specs.Grid.{IsSide, corner_at};

use road_model::Vertex;

/// The sides of a grid that is made.
#[derive(Clone, Copy)]
pub struct Sides {
    pub width: u32,
    pub height: u32,
    ghost wide: { IsSide width },
    ghost high: { IsSide height },
}

fn is_side(side: u32) -> bool
    ensures { IsTrue result ↔ IsSide side }
{
    1 <= side && side <= 4096
}

impl Sides {
    /// These sides; none where one of them is outside 1 to 4096.
    pub fn new(width: u32, height: u32) -> Option<Sides>
        ensures same { IfSome result (λ s. (s.width ≡ width) × (s.height ≡ height)) }
        ensures refused { IsNone result ↔ (IsSide width × IsSide height → ⊥) }
    {
        if is_side(width) && is_side(height) {
            Some(Sides { width, height })
        } else {
            None
        }
    }

    /// How many vertices the grid has.
    pub fn vertices(self) -> u32
        ensures { result ≡ self.width * self.height }
    {
        self.width * self.height
    }

    /// How many arcs the grid has. It only says how much memory is taken at once, so no clause speaks of it.
    pub fn arcs(self) -> u32 {
        let across = (self.width - 1) * self.height;
        let down = self.width * (self.height - 1);
        2 * (across + down)
    }

    /// The vertex in this row and column, both counted from 0.
    pub fn vertex(self, row: u32, column: u32) -> Vertex
        requires row { row ≤ 4096 }
        requires column { column ≤ 4096 }
        ensures { result ≡ corner_at self.width row column }
    {
        Vertex(row * self.width + column + 1)
    }
}
