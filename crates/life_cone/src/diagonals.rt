//! Diagonals that keep cells apart: five between two of them leave a distance of 3 or more.

ghost use Rattle.std.specs.Prelude.{◌↔◌, ◌^◌, ◌≤ℤ◌, pos, neg_ℤ, IsTrue};
ghost use Rattle.life_plane.specs.Plane.{Plane};
ghost use Rattle.life_plane.specs.Apart.{Apart};
ghost use Rattle.life_plane.specs.Strips.{Each, UAtMost, UAtLeast};
ghost use Rattle.life_cells.specs.Cells.{alive};
ghost use Rattle.life_cells.specs.Boxes.{IsInRange, IsCellInRange};
ghost use Rattle.life_cone.specs.Sides.{IsInStrip, IsBesideStrip, AreSplit};

use life_cells::{Cell, CellSet};

/// Whether the cell's v is at most low - 5 or at least high + 5.
fn is_beside_strip(cell: Cell, low: i64, high: i64) -> bool
    requires cell { IsCellInRange (2 ^ 60) cell }
    requires low_from { neg_ℤ (pos (2 ^ 60)) ≤ℤ low }
    requires low_to { low ≤ℤ pos (2 ^ 60) }
    requires high_from { neg_ℤ (pos (2 ^ 60)) ≤ℤ high }
    requires high_to { high ≤ℤ pos (2 ^ 60) }
    ensures { IsTrue result ↔ IsBesideStrip low high cell.x cell.y }
{
    let v = cell.x + cell.y;
    let below = v <= low - 5;
    let above = v >= high + 5;
    below | above
}

/// Whether each cell has v = x + y at most low - 5 or at least high + 5: then the set is apart from
/// all cells whose v lies from low to high.
pub fn strip_apart(cells: &CellSet, low: i64, high: i64) -> bool
    requires cells { IsInRange (2 ^ 60) (alive cells.now) }
    requires low_from { neg_ℤ (pos (2 ^ 60)) ≤ℤ low }
    requires low_to { low ≤ℤ pos (2 ^ 60) }
    requires high_from { neg_ℤ (pos (2 ^ 60)) ≤ℤ high }
    requires high_to { high ≤ℤ pos (2 ^ 60) }
    ensures exact { IsTrue result ↔ Each (IsBesideStrip low high) (alive cells.now) }
    ensures apart { IsTrue result → (t : Plane) → Each (IsInStrip low high) t → Apart (alive cells.now) t }
{
    for cell in cells.cells() {
        if !is_beside_strip(*cell, low, high) {
            return false;
        }
    }
    true
}

/// Whether the cell's u is at most the limit.
fn is_at_most(cell: Cell, limit: i64) -> bool
    requires { IsCellInRange (2 ^ 60) cell }
    ensures { IsTrue result ↔ UAtMost limit cell.x cell.y }
{
    cell.x - cell.y <= limit
}

/// Whether the cell's u is at least the limit.
fn is_at_least(cell: Cell, limit: i64) -> bool
    requires { IsCellInRange (2 ^ 60) cell }
    ensures { IsTrue result ↔ UAtLeast limit cell.x cell.y }
{
    cell.x - cell.y >= limit
}

/// Whether each cell's u is at most the limit.
fn all_at_most(cells: &CellSet, limit: i64) -> bool
    requires { IsInRange (2 ^ 60) (alive cells.now) }
    ensures { IsTrue result ↔ Each (UAtMost limit) (alive cells.now) }
{
    for cell in cells.cells() {
        if !is_at_most(*cell, limit) {
            return false;
        }
    }
    true
}

/// Whether each cell's u is at least the limit.
fn all_at_least(cells: &CellSet, limit: i64) -> bool
    requires { IsInRange (2 ^ 60) (alive cells.now) }
    ensures { IsTrue result ↔ Each (UAtLeast limit) (alive cells.now) }
{
    for cell in cells.cells() {
        if !is_at_least(*cell, limit) {
            return false;
        }
    }
    true
}

/// Whether each cell of the western set has u = x - y at most the limit, and each cell of the eastern
/// one at least limit + 5: then the two sets are apart.
pub fn split_apart(west: &CellSet, limit: i64, east: &CellSet) -> bool
    requires west { IsInRange (2 ^ 60) (alive west.now) }
    requires low { neg_ℤ (pos (2 ^ 60)) ≤ℤ limit }
    requires high { limit ≤ℤ pos (2 ^ 60) }
    requires east { IsInRange (2 ^ 60) (alive east.now) }
    ensures exact { IsTrue result ↔ AreSplit limit (alive west.now) (alive east.now) }
    ensures apart { IsTrue result → Apart (alive west.now) (alive east.now) }
{
    all_at_most(west, limit) && all_at_least(east, limit + 5)
}
