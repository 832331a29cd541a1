//! Cells of a list in order that are close to a cell: within distance 2.

ghost use Rattle.std.specs.Prelude.{◌≡◌, ◌↔◌, IsTrue, ◌+ℤ◌};
ghost use Rattle.std.specs.List.{filter};
ghost use Rattle.std.specs.Ordering.{is_lt};
ghost use Rattle.life_cells.specs.Cells.{IsRising, cell, cell_cmp};
ghost use Rattle.life_cells.specs.Close.{Close, is_close_in_row, IsFirstFrom};
ghost use Rattle.life_cells.specs.Listed.{listed};

use crate::cell::Cell;

/// Whether a listed cell is at distance 2 or less from this one.
pub(crate) fn has_close(cells: &[Cell], it: Cell) -> bool
    requires { IsRising cells.now }
    ensures { IsTrue result ↔ Close (listed cells.now) it.x it.y }
{
    for dy in -2..3 {
        if !close_in_row(cells, it, dy).is_empty() {
            return true;
        }
    }
    false
}

/// The listed cells of the row dy below the cell's own that are at most two columns from it.
pub(crate) fn close_in_row(cells: &[Cell], it: Cell, dy: i64) -> &[Cell]
    requires { IsRising cells.now }
    ensures { result.now ≡ filter (is_close_in_row it.x (it.y +ℤ dy)) cells.now }
{
    let x = i128::from(it.x);
    let y = i128::from(it.y) + i128::from(dy);
    let from = first_from(cells, x - 2, y);
    let to = first_from(cells, x + 3, y);
    &cells[from..to]
}

/// The place of the first listed cell that does not come before column x of row y; the length where all do.
fn first_from(cells: &[Cell], x: i128, y: i128) -> usize
    requires { IsRising cells.now }
    ensures { IsFirstFrom cells.now (cell x y) result }
{
    let mut low = 0;
    let mut high = cells.len();
    'halves: while low < high {
        let middle = low + (high - low) / 2;
        if comes_before(cells[middle], x, y) {
            low = middle + 1;
        } else {
            high = middle;
        }
    }
    low
}

/// Whether the cell comes before column x of row y.
fn comes_before(it: Cell, x: i128, y: i128) -> bool
    ensures { result ≡ is_lt (cell_cmp it (cell x y)) }
{
    let row = i128::from(it.y);
    row < y || row == y && i128::from(it.x) < x
}
