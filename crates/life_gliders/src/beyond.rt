//! The cells in front of the wall.

ghost use Rattle.std.specs.Prelude.{◌≡◌, ◌↔◌, ◌^◌, ◌≤ℤ◌, ◌+ℤ◌, ◌-ℤ◌, pos, neg_ℤ, int_le, IfSome, IfNone, IsTrue};
ghost use Rattle.life_plane.specs.Plane.{nothing};
ghost use Rattle.life_cells.specs.Cells.{alive};
ghost use Rattle.life_cells.specs.Boxes.{IsInRange, IsCellInRange};
ghost use Rattle.life_cells.specs.Listed.{listed};
ghost use Rattle.life_gliders.specs.Beyond.{beyond, IsFirstLive, IsPartOf};

use life_cells::{Cell, CellSet};

/// Whether the cell's u = x - y is at least five more than the wall.
fn is_beyond(cell: Cell, wall: i64) -> bool
    requires cell { IsCellInRange (2 ^ 58) cell }
    requires low { neg_ℤ (pos 4096) ≤ℤ wall }
    requires high { wall ≤ℤ pos 4096 }
    ensures { result ≡ int_le (wall +ℤ pos 5) (cell.x -ℤ cell.y) }
{
    cell.x - cell.y >= wall + 5
}

/// Whether the set has this cell, and it is in front of the wall.
fn has_beyond(cells: &CellSet, wall: i64, cell: Cell) -> bool
    requires cells { IsInRange (2 ^ 58) (alive cells.now) }
    requires low { neg_ℤ (pos 4096) ≤ℤ wall }
    requires high { wall ≤ℤ pos 4096 }
    ensures { result ≡ beyond wall (alive cells.now) cell.x cell.y }
{
    cells.contains(cell) && is_beyond(cell, wall)
}

/// Whether this cell is listed.
fn has_cell(cells: &[Cell], cell: Cell) -> bool
    ensures { result ≡ listed cells.now cell.x cell.y }
{
    cells.contains(&cell)
}

/// The first cell in front of the wall; None exactly where there is none.
pub(crate) fn first_beyond(cells: &CellSet, wall: i64) -> Option<Cell>
    requires cells { IsInRange (2 ^ 58) (alive cells.now) }
    requires low { neg_ℤ (pos 4096) ≤ℤ wall }
    requires high { wall ≤ℤ pos 4096 }
    ensures some { IfSome result (λ c. IsFirstLive c (beyond wall (alive cells.now))) }
    ensures range { IfSome result (IsCellInRange (2 ^ 58)) }
    ensures none { IfNone result (beyond wall (alive cells.now) ≡ nothing) }
{
    for cell in cells.cells() {
        if is_beyond(*cell, wall) {
            return Some(*cell);
        }
    }
    None
}

/// Whether the set has each listed cell, and all of them are in front of the wall.
fn has_all(cells: &CellSet, wall: i64, list: &[Cell]) -> bool
    requires cells { IsInRange (2 ^ 58) (alive cells.now) }
    requires low { neg_ℤ (pos 4096) ≤ℤ wall }
    requires high { wall ≤ℤ pos 4096 }
    ensures { IsTrue result ↔ IsPartOf (listed list.now) (beyond wall (alive cells.now)) }
{
    for cell in list {
        if !has_beyond(cells, wall, *cell) {
            return false;
        }
    }
    true
}

/// Whether each cell of the set that is in front of the wall is listed.
fn has_only(cells: &CellSet, wall: i64, list: &[Cell]) -> bool
    requires cells { IsInRange (2 ^ 58) (alive cells.now) }
    requires low { neg_ℤ (pos 4096) ≤ℤ wall }
    requires high { wall ≤ℤ pos 4096 }
    ensures { IsTrue result ↔ IsPartOf (beyond wall (alive cells.now)) (listed list.now) }
{
    for cell in cells.cells() {
        if is_beyond(*cell, wall) && !has_cell(list, *cell) {
            return false;
        }
    }
    true
}

/// Whether the cells of the set that are in front of the wall are exactly the listed ones.
/// The list is looked for first: the whole set is read only where it has all of the list.
pub(crate) fn are_beyond(cells: &CellSet, wall: i64, list: &[Cell]) -> bool
    requires cells { IsInRange (2 ^ 58) (alive cells.now) }
    requires low { neg_ℤ (pos 4096) ≤ℤ wall }
    requires high { wall ≤ℤ pos 4096 }
    ensures { IsTrue result ↔ (beyond wall (alive cells.now) ≡ listed list.now) }
{
    has_all(cells, wall, list) && has_only(cells, wall, list)
}
