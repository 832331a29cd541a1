//! Lists of cells that are far from each other.

ghost use Rattle.std.specs.Prelude.{◌↔◌, IsTrue};
ghost use Rattle.life_cells.specs.Cells.{IsRising};
ghost use Rattle.life_cells.specs.Listed.{listed};
ghost use Rattle.life_plane.specs.Apart.{Apart};

use crate::cell::Cell;
use crate::close::has_close;

/// Whether no cell of the one list is at distance 2 or less from a cell of the other, which is in order.
pub(crate) fn are_apart(left: &[Cell], right: &[Cell]) -> bool
    requires { IsRising right.now }
    ensures { IsTrue result ↔ Apart (listed left.now) (listed right.now) }
{
    for cell in left {
        if has_close(right, *cell) {
            return false;
        }
    }
    true
}
