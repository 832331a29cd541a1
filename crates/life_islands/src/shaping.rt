//! The shape of a set of cells, and its place.

ghost use Rattle.std.specs.Prelude.{◌≢◌, ◌^◌, IfOk};
ghost use Rattle.life_cells.specs.Boxes.{IsInRange};
ghost use Rattle.life_cells.specs.Cells.{alive, empty};
ghost use Rattle.life_islands.specs.Shapes.{IsShapeOf};

use crate::shape::Shape;
use life_cells::{Cell, CellSet, NoMemory};

/// The shape of a set of cells, and the top left of the least box that holds them: the set is the shape moved there.
///
/// # Errors
///
/// [`NoMemory`] where there was no memory for the shape.
pub fn shape_of(cells: &CellSet) -> Result<(Shape, Cell), NoMemory>
    requires some { cells.now ≢ empty }
    requires range { IsInRange (2 ^ 60) (alive cells.now) }
    ensures { IfOk result (λ r. IsShapeOf (alive cells.now) (alive r.0) r.1) }
{
    let Some(bounds) = cells.bounds() else {
        unreachable!()
    };
    let corner = Cell::new(bounds.left, bounds.top);
    let moved = cells.shift(-corner.x, -corner.y)?;
    Ok((Shape::from_cells(moved), corner))
}
