//! Rows of a block, found by their vertices.

ghost use Rattle.std.specs.Prelude.{◌≡◌};
ghost use Rattle.recheck.specs.Rows.{row_of};
ghost use Rattle.recheck.specs.Standing.{IsRising};

use certificate_text::BlockRow;

/// The row of the vertex, by halves.
pub(crate) fn find_row(rows: &[BlockRow], vertex: u64) -> Option<BlockRow>
    requires { IsRising rows.now }
    ensures { result ≡ row_of rows.now vertex }
{
    let mut low = 0;
    let mut high = rows.len();
    while low < high {
        let middle = low + (high - low) / 2;
        let row = rows[middle];
        if row.vertex == vertex {
            return Some(row);
        }
        if row.vertex < vertex {
            low = middle + 1;
        } else {
            high = middle;
        }
    }
    None
}
