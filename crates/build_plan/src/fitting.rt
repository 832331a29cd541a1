//! Where a hand stands whose salvo puts its product on an island.

ghost use Rattle.std.specs.Prelude.{◌≡◌, ◌^◌, ◌-ℤ◌};
ghost use Rattle.life_plane.specs.Plane.{Plane, shift};
ghost use Rattle.life_cells.specs.Boxes.{IsCellInRange};
ghost use Rattle.life_cells.specs.Cells.{alive, cell as cell_at};
ghost use Rattle.life_islands.specs.Shapes.{IsShapeOf};
ghost use Rattle.recipe_book.specs.ByShape.{Builds};

use life_cells::Cell;
use recipe_hit::CheckedSalvo;

/// A cell, moved back by another.
fn less(cell: Cell, by: Cell) -> Cell
    requires cell { IsCellInRange (2 ^ 40) cell }
    requires by { IsCellInRange (2 ^ 40) by }
    ensures { result ≡ cell_at (cell.x -ℤ by.x) (cell.y -ℤ by.y) }
{
    Cell::new(cell.x - by.x, cell.y - by.y)
}

/// The place of the hand from which a salvo that builds an island's shape puts its product on the island, whose box has this top left.
pub(crate) fn place_on(salvo: &CheckedSalvo, corner: Cell) -> Cell
    requires builds { (shape : Plane) × Builds salvo.now shape }
    requires corner { IsCellInRange (2 ^ 40) corner }
    ensures on { (island shape : Plane) → IsShapeOf island shape corner → Builds salvo.now shape → shift result.x result.y (alive salvo.now.raw.product) ≡ island }
    ensures range { IsCellInRange (2 ^ 41) result }
{
    let Some((_, at)) = salvo.product() else {
        unreachable!()
    };
    less(corner, at)
}
