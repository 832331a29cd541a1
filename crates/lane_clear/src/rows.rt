//! Whether a list of cells in order has one in a box.

ghost use Rattle.std.specs.Prelude.{◌≡◌, ◌↔◌, ◌^◌, ◌<ℤ◌, pos, IsTrue, IfSome, IfNone};
ghost use Rattle.life_plane.specs.Strips.{Each};
ghost use Rattle.life_cells.specs.Boxes.{InBox};
ghost use Rattle.life_cells.specs.Cells.{IsRising};
ghost use Rattle.life_cells.specs.Close.{IsFirstFrom};
ghost use Rattle.life_cells.specs.Listed.{listed};
ghost use Rattle.lane_clear.specs.Bare.{IsBare, IsBefore, IsNext, IsRowAfter};

use life_cells::{Bounds, Cell};

/// The place of the first cell that doesn't come before this one; the length where all do.
fn first_from(cells: &[Cell], it: Cell) -> usize
    requires { IsRising cells.now }
    ensures { IsFirstFrom cells.now it result }
{
    match cells.binary_search(&it) {
        Ok(place) => place,
        Err(place) => place,
    }
}

/// The first cell from column left of a row on; None where all come before.
fn next_from(cells: &[Cell], left: i64, row: i64) -> Option<Cell>
    requires { IsRising cells.now }
    ensures some { IfSome result (IsNext cells.now left row) }
    ensures none { IfNone result (Each (IsBefore left row) (listed cells.now)) }
{
    let first = Cell { x: left, y: row };
    cells.get(first_from(cells, first)).copied()
}

/// Whether the box has the cell.
pub fn has_cell(bounds: Bounds, cell: Cell) -> bool
    ensures { IsTrue result ↔ InBox bounds cell.x cell.y }
{
    let right_of_left = bounds.left <= cell.x;
    let below_top = bounds.top <= cell.y;
    let left_of_right = cell.x <= bounds.right;
    let above_bottom = cell.y <= bounds.bottom;
    right_of_left & below_top & left_of_right & above_bottom
}

/// The next row to look at, where the first cell from the box's left of a row on is this one, and isn't in the box.
fn next_row(bounds: Bounds, cell: Cell) -> i64
    requires { cell.y <ℤ pos (2 ^ 62) }
    ensures { IsRowAfter bounds cell result }
{
    if bounds.right < cell.x {
        cell.y + 1
    } else {
        cell.y
    }
}

/// Whether no cell of a list in order is in the box. Only rows with cells are looked at, each by a binary search.
pub(crate) fn is_bare(cells: &[Cell], bounds: Bounds) -> bool
    requires rising { IsRising cells.now }
    requires bottom { bounds.bottom <ℤ pos (2 ^ 62) }
    ensures { IsTrue result ↔ IsBare bounds (listed cells.now) }
{
    let mut row = bounds.top;
    'rows: while row <= bounds.bottom {
        let Some(cell) = next_from(cells, bounds.left, row) else {
            return true;
        };
        if bounds.bottom < cell.y {
            return true;
        }
        if has_cell(bounds, cell) {
            return false;
        }
        row = next_row(bounds, cell);
    }
    true
}
