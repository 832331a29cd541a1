//! What a set of cells looks like, whatever its place.

ghost use Rattle.std.specs.Prelude.{◌≡◌};
ghost use Rattle.life_cells.specs.Cells.{Cells, coded_cells, alive};
ghost use Rattle.life_islands.specs.Shapes.{IsShape};

use life_cells::CellSet;
use std::marker::Model;

/// A set of cells with at least one, whose least box has its top left at (0,0).
#[derive(Debug, Drop)]
pub struct Shape {
    cells: CellSet,
}

impl Model for Shape {
    ghost Value = { Cells };

    ghost coded = { coded_cells };

    ghost view = { λ s. s.cells };

    ghost invariant = { λ s. IsShape (alive s.cells) };
}

impl Shape {
    /// The shape of cells that lie so already. It takes no memory.
    pub(crate) fn from_cells(cells: CellSet) -> Self
        requires { IsShape (alive cells) }
        ensures { result ≡ cells }
    {
        Shape { cells }
    }

    /// Its cells. It takes no memory.
    pub fn cells(&self) -> &CellSet
        ensures cells { result.now ≡ self.now }
        ensures shape { IsShape (alive self.now) }
    {
        &self.cells
    }
}
