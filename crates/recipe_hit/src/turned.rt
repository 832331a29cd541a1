//! Sets of cells seen from other sides.

ghost use Rattle.std.specs.Prelude.{◌≡◌, ◌^◌, IfOk};
ghost use Rattle.life_cells.specs.Boxes.{IsInRange, IsCellInRange};
ghost use Rattle.life_cells.specs.Cells.{alive};
ghost use Rattle.recipe_hit.specs.Endless.{mirror, transpose, mirrored_cell, transposed_cell};

use life_cells::{Cell, CellSet, NoMemory};
use std::alloc::Global;

/// The cells left for right.
pub(crate) fn mirrored(alloc: Global, cells: &CellSet) -> Result<CellSet, NoMemory>
    requires { IsInRange (2 ^ 58) (alive cells.now) }
    ensures { IfOk result (λ s. alive s ≡ mirror (alive cells.now)) }
{
    let mut mirrored = Vec::new(alloc);
    for cell in cells.cells() {
        mirrored.push(mirrored_cell(*cell))?;
    }
    CellSet::from_cells(alloc, &mirrored)
}

/// The cells with x for y.
pub(crate) fn transposed(alloc: Global, cells: &CellSet) -> Result<CellSet, NoMemory>
    ensures { IfOk result (λ s. alive s ≡ transpose (alive cells.now)) }
{
    let mut transposed = Vec::new(alloc);
    for cell in cells.cells() {
        transposed.push(transposed_cell(*cell))?;
    }
    CellSet::from_cells(alloc, &transposed)
}

/// A cell left for right.
fn mirrored_cell(cell: Cell) -> Cell
    requires { IsCellInRange (2 ^ 58) cell }
    ensures { result ≡ mirrored_cell cell }
{
    Cell::new(-cell.x, cell.y)
}

/// A cell with x for y.
fn transposed_cell(cell: Cell) -> Cell
    ensures { result ≡ transposed_cell cell }
{
    Cell::new(cell.y, cell.x)
}
