//! Gliders that lead cells for good. A glider comes forward along its diagonal as fast as anything can, so what is behind it stays behind.

ghost use Rattle.std.specs.Prelude.{◌≡◌, ◌^◌, ◌-ℤ◌, true, IsTrue, IfOk, IfSome};
ghost use Rattle.life_cells.specs.Boxes.{IsInRange, IsCellInRange};
ghost use Rattle.life_cells.specs.Cells.{alive};
ghost use Rattle.recipe_hit.specs.Endless.{NeverStill};

use crate::turned::{mirrored, transposed};
use life_cells::{Cell, CellSet, NoMemory};
use life_gliders::find_salvo_glider;
use std::alloc::Global;

/// How far behind the foremost diagonal the wall is, in front of which nothing but a glider may live.
const BEHIND: i64 = 13;

/// How far from the middle a wall may be.
const FARTHEST_WALL: i64 = 4_096;

/// Whether a glider is seen to lead the cells, in whichever of the four directions. Then they never rest.
pub(crate) fn is_led(alloc: Global, cells: &CellSet) -> Result<bool, NoMemory>
    requires { IsInRange (2 ^ 58) (alive cells.now) }
    ensures { IfOk result (λ led. IsTrue led → NeverStill (alive cells.now)) }
{
    if leads_across(alloc, cells)? {
        return Ok(true);
    }
    let turned = mirrored(alloc, cells)?;
    leads_across(alloc, &turned)
}

/// Whether a glider that travels right and up, or left and down, leads the cells.
fn leads_across(alloc: Global, cells: &CellSet) -> Result<bool, NoMemory>
    requires { IsInRange (2 ^ 58) (alive cells.now) }
    ensures { IfOk result (λ led. IsTrue led → NeverStill (alive cells.now)) }
{
    if leads(cells) {
        return Ok(true);
    }
    let turned = transposed(alloc, cells)?;
    Ok(leads(&turned))
}

/// Whether a glider that travels right and up is all that lives on the foremost nine diagonals.
fn leads(cells: &CellSet) -> bool
    requires { IsInRange (2 ^ 58) (alive cells.now) }
    ensures { IsTrue result → NeverStill (alive cells.now) }
{
    let Some(front) = foremost(cells) else {
        return false;
    };
    let wall = diagonal_of(front) - BEHIND;
    if wall < -FARTHEST_WALL || FARTHEST_WALL < wall {
        return false;
    }
    find_salvo_glider(cells, wall).is_some()
}

/// A cell on the foremost diagonal.
fn foremost(cells: &CellSet) -> Option<Cell>
    requires { IsInRange (2 ^ 58) (alive cells.now) }
    ensures { IfSome result (λ c. alive cells.now c.x c.y ≡ true) }
{
    let Some(mut front) = cells.get(0) else {
        return None;
    };
    for cell in cells.cells() {
        if diagonal_of(front) < diagonal_of(*cell) {
            front = *cell;
        }
    }
    Some(front)
}

/// The diagonal of a cell: its u.
fn diagonal_of(cell: Cell) -> i64
    requires { IsCellInRange (2 ^ 58) cell }
    ensures { result ≡ cell.x -ℤ cell.y }
{
    cell.x - cell.y
}
