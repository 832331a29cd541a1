//! One island of a set of cells.

use life_cells::{Cell, CellSet};

/// An island of a set of cells.
#[derive(Debug, Drop, PartialEq, Eq)]
pub struct Island {
    /// Its cells.
    pub cells: CellSet,
    /// The first of its cells in (y,x) order.
    pub first: Cell,
}
