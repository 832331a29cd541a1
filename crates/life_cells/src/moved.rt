//! Cells moved by one distance.

ghost use Rattle.std.specs.Prelude.{◌≡◌, ◌++◌, map, OnOk};
ghost use Rattle.std.specs.List.{All};
ghost use Rattle.life_cells.specs.Moved.{moved, FitsMoved};

use crate::cell::Cell;
use crate::memory::NoMemory;

/// Appends the cells, each moved right by dx and down by dy.
pub(crate) fn push_moved(
    into: &mut Vec<Cell>,
    cells: &[Cell],
    dx: i64,
    dy: i64,
) -> Result<(), NoMemory>
    requires { All (FitsMoved dx dy) cells.now }
    ensures { OnOk result (into.new.items ≡ into.old.items ++ map (moved dx dy) cells.now) }
{
    for cell in cells {
        into.push(Cell::new(cell.x + dx, cell.y + dy))?;
    }
    Ok(())
}
