//! Where a tile lies.

ghost use Rattle.std.specs.Prelude.{◌≡◌, pos, ◌+ℤ◌, ◌-ℤ◌};
ghost use Rattle.life_kernel.specs.Words.{part, offset};

use life_cells::Cell;

/// The place of a tile. The one in this column and row has the cells from x = 64 column to 64 column + 63, and from y = 64 row to
/// 64 row + 63.
#[derive(Clone, Copy, Debug, PartialEq, Eq, Hash)]
pub struct Place {
    /// The row of tiles, going down.
    pub row: i64,
    /// The column of tiles, going right.
    pub column: i64,
}

impl Place {
    /// The place of the tile in which a cell lies.
    pub fn of(cell: Cell) -> Self
        ensures { result ≡ record { row = part cell.y; column = part cell.x } }
    {
        Place {
            row: cell.y.div_euclid(64),
            column: cell.x.div_euclid(64),
        }
    }
}

/// How far right a cell lies in its tile.
pub(crate) fn right_in_tile(cell: Cell) -> usize
    ensures { result ≡ offset cell.x }
{
    cell.x.rem_euclid(64) as usize
}

/// How far down a cell lies in its tile.
pub(crate) fn down_in_tile(cell: Cell) -> usize
    ensures { result ≡ offset cell.y }
{
    cell.y.rem_euclid(64) as usize
}
