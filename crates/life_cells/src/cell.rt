//! One cell of the plane.
ghost use Rattle.std.specs.Prelude.{◌≡◌};

/// A cell. Cells are ordered by y, then by x.
#[derive(Clone, Copy, Debug, PartialEq, Eq, PartialOrd, Ord, Hash)]
pub struct Cell {
    /// The row, going down.
    pub y: i64,
    /// The column, going right.
    pub x: i64,
}

impl Cell {
    /// The cell in column x and row y.
    pub fn new(x: i64, y: i64) -> Self
        ensures { result ≡ record { y = y; x = x } }
    {
        Cell { y, x }
    }
}
