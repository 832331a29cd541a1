//! How far from (0,0) a text may go.

ghost use Rattle.std.specs.Prelude.{◌↔◌, IsTrue};
ghost use Rattle.rle_items.specs.Reach.{IsNearZero, IsInReach};

use life_cells::Cell;

/// The greatest coordinate that is read; the least is its negative.
pub const FARTHEST: u64 = 1 << 40;

/// Whether a coordinate is from -2^40 to 2^40.
fn is_near_zero(z: i64) -> bool
    ensures { IsTrue result ↔ IsNearZero z }
{
    z.unsigned_abs() <= FARTHEST
}

/// Whether both coordinates of a cell are from -2^40 to 2^40.
pub fn is_in_reach(cell: Cell) -> bool
    ensures { IsTrue result ↔ IsInReach cell }
{
    is_near_zero(cell.x) && is_near_zero(cell.y)
}
