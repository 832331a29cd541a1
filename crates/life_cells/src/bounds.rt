//! Boxes of cells.

ghost use Rattle.std.specs.Prelude.{◌≡◌};
ghost use Rattle.life_cells.specs.Boxes.{box_of_both};

use crate::cell::Cell;

/// A box of cells, both ends within.
#[derive(Clone, Copy, Debug, PartialEq, Eq)]
pub struct Bounds {
    /// The least x.
    pub left: i64,
    /// The least y.
    pub top: i64,
    /// The greatest x.
    pub right: i64,
    /// The greatest y.
    pub bottom: i64,
}

impl Bounds {
    /// The box of one cell.
    pub fn at(cell: Cell) -> Self
        ensures { result ≡ record { left = cell.x; top = cell.y; right = cell.x; bottom = cell.y } }
    {
        Bounds {
            left: cell.x,
            top: cell.y,
            right: cell.x,
            bottom: cell.y,
        }
    }

    /// The least box that holds this one and the cell.
    pub(crate) fn with(self, cell: Cell) -> Self
        ensures { result ≡ box_of_both self (record { left = cell.x; top = cell.y; right = cell.x; bottom = cell.y }) }
    {
        self.joined(Bounds::at(cell))
    }

    /// The least box that holds this one and the other.
    pub fn joined(self, other: Bounds) -> Self
        ensures { result ≡ box_of_both self other }
    {
        Bounds {
            left: self.left.min(other.left),
            top: self.top.min(other.top),
            right: self.right.max(other.right),
            bottom: self.bottom.max(other.bottom),
        }
    }
}
