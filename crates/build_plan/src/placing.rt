//! Where a target is built.

ghost use Rattle.std.specs.Prelude.{◌≡◌, ◌^◌, ◌-ℤ◌};
ghost use Rattle.life_cells.specs.Cells.{alive, cell};
ghost use Rattle.life_cells.specs.Boxes.{IsInRange, IsBoxInRange, IsCellInRange};
ghost use Rattle.book_parts.specs.Limits.{AreProper};
ghost use Rattle.build_plan.specs.Placing.{to_corner, room_about, back_of, IsPlacing};

use book_parts::Settings;
use life_cells::{Bounds, Cell, CellSet};

/// Where a target is built, and the room about it.
#[derive(Clone, Copy, Debug, PartialEq, Eq)]
pub struct Placing {
    /// How far the target is moved.
    pub by: Cell,
    /// Where a hand may be.
    pub room: Bounds,
}

/// The move that brings the lower left corner of a box to the book's corner.
fn to_corner(settings: &Settings, bounds: Bounds) -> Cell
    requires settings { AreProper settings.now }
    requires bounds { IsBoxInRange (2 ^ 40) bounds }
    ensures { result ≡ to_corner settings.now.corner bounds }
{
    Cell::new(
        settings.corner.x - bounds.left,
        settings.corner.y - bounds.bottom,
    )
}

/// A box, moved by this and made wider by the room on each side.
fn room_about(settings: &Settings, by: Cell, bounds: Bounds) -> Bounds
    requires settings { AreProper settings.now }
    requires by { IsCellInRange (2 ^ 41) by }
    requires bounds { IsBoxInRange (2 ^ 40) bounds }
    ensures { result ≡ room_about settings.now by bounds }
{
    Bounds {
        left: bounds.left + by.x - settings.room,
        top: bounds.top + by.y - settings.room,
        right: bounds.right + by.x + settings.room,
        bottom: bounds.bottom + by.y + settings.room,
    }
}

impl Placing {
    /// Where these cells are built: the lower left corner of their box comes to the book's corner; no cell is not moved.
    pub(crate) fn of(settings: &Settings, cells: &CellSet) -> Self
        requires settings { AreProper settings.now }
        requires cells { IsInRange (2 ^ 40) (alive cells.now) }
        ensures { IsPlacing settings.now (alive cells.now) result }
    {
        let Some(bounds) = cells.bounds() else {
            let by = Cell::new(0, 0);
            return Placing {
                by,
                room: Bounds::at(by),
            };
        };
        let by = to_corner(settings, bounds);
        Placing {
            by,
            room: room_about(settings, by, bounds),
        }
    }
}

/// The shift back to the target's own place.
pub(crate) fn back_of(by: Cell) -> Cell
    requires { IsCellInRange (2 ^ 41) by }
    ensures { result ≡ back_of by }
{
    Cell::new(-by.x, -by.y)
}

/// A cell of what is built, in the target's own coordinates.
pub(crate) fn own_cell(at: Cell, by: Cell) -> Cell
    requires at { IsCellInRange (2 ^ 40) at }
    requires by { IsCellInRange (2 ^ 41) by }
    ensures { result ≡ cell (at.x -ℤ by.x) (at.y -ℤ by.y) }
{
    Cell::new(at.x - by.x, at.y - by.y)
}
