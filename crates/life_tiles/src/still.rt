//! Whether a pattern is a still life.

ghost use Rattle.std.specs.Prelude.{◌≡◌, ◌+◌, ◌≤◌, ◌^◌, IfOk, MatchOption};
ghost use Rattle.life_plane.specs.Plane.{IsStill};
ghost use Rattle.life_cells.specs.Cells.{alive};
ghost use Rattle.life_cells.specs.Boxes.{IsInRange};
ghost use Rattle.life_cells.specs.Firsts.{IsFirstChange};

use crate::tiles::Tiles;
use life_cells::{Cell, CellSet, NoMemory};
use life_steps::Steps;
use std::alloc::Global;
use std::sync::ledger::Ledger;

/// The first cell, in (y,x) order, that changes in the next generation, which is counted; None exactly where the set is still.
///
/// # Errors
/// Want of memory alone.
pub fn first_change<L: Ledger>(
    alloc: Global,
    cells: &CellSet,
    steps: &mut Steps<L>,
) -> Result<Option<Cell>, NoMemory>
    requires { IsInRange (2 ^ 61) (alive cells.now) }
    ensures change { IfOk result (λ change. MatchOption change (IsStill (alive cells.now)) (IsFirstChange (alive cells.now))) }
    ensures least { steps.old ≤ steps.new }
    ensures most { steps.new ≤ steps.old + 1 }
{
    let mut tiles = Tiles::from_cells(alloc, cells)?;
    tiles.step(steps)?;
    let next = tiles.to_cells()?;
    Ok(cells.first_difference(&next))
}
