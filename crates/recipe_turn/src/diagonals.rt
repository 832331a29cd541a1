//! The diagonals of a cell, of which the bounds of kinds and turns speak.

ghost use Rattle.std.specs.Prelude.{◌≡◌, pos, ◌+ℤ◌, ◌-ℤ◌, ◌*ℤ◌};
ghost use Rattle.book_parts.specs.Limits.{AreProper};
ghost use Rattle.recipe_turn.specs.Range.{IsWithinReach};

use book_parts::Settings;
use life_cells::Cell;

/// u = x - y.
pub(crate) fn u_of(cell: Cell) -> i64
    requires { IsWithinReach cell.x cell.y }
    ensures { result ≡ cell.x -ℤ cell.y }
{
    cell.x - cell.y
}

/// Twice v = x + y, counted from half the approach before the frame.
pub(crate) fn ahead_of_tail(settings: &Settings, cell: Cell) -> i64
    requires settings { AreProper settings.now }
    requires cell { IsWithinReach cell.x cell.y }
    ensures { result ≡ pos 2 *ℤ (cell.x +ℤ cell.y) +ℤ settings.now.approach }
{
    let v = cell.x + cell.y;
    2 * v + settings.approach
}
