//! Kinds of elbow: still lifes in their place.

ghost use Rattle.std.specs.Prelude.{◌+◌, ◌≤◌, IfOk, IfErr, MatchOption};
ghost use Rattle.life_cells.specs.Cells.{alive};
ghost use Rattle.book_parts.specs.Limits.{AreProper, IsPlaced};
ghost use Rattle.book_parts.specs.Proper.{HasLife};
ghost use Rattle.recipe_turn.specs.Kind.{AreInPlace, IsFirstOutOfPlace, IsValidKind};
ghost use Rattle.recipe_turn.specs.Refusals.{KindIsRefused};

use crate::bounds::{Bound, first_breaking};
use crate::refusal::KindsError;
use book_parts::Settings;
use life_cells::{Cell, CellSet};
use life_steps::Steps;
use life_tiles::first_change;
use std::alloc::Global;
use std::sync::ledger::Ledger;

/// The first cell that a kind may not have; None exactly where all cells are in place.
pub fn first_out_of_place(settings: &Settings, cells: &CellSet) -> Option<Cell>
    requires settings { AreProper settings.now }
    requires placed { IsPlaced (alive cells.now) }
    ensures { MatchOption result (AreInPlace settings.now (alive cells.now)) (IsFirstOutOfPlace settings.now (alive cells.now)) }
{
    first_breaking(settings, Bound::Place, cells)
}

/// Refuses the kind with this number where its cells are out of place or change.
pub(crate) fn test_kind<L: Ledger>(
    alloc: Global,
    settings: &Settings,
    number: usize,
    cells: &CellSet,
    steps: &mut Steps<L>,
) -> Result<(), KindsError>
    requires settings { AreProper settings.now }
    requires placed { IsPlaced (alive cells.now) }
    requires lives { HasLife (alive cells.now) }
    ensures valid { IfOk result (λ _. IsValidKind settings.now (alive cells.now)) }
    ensures refusal { IfErr result (λ e. KindIsRefused settings.now number (alive cells.now) e) }
    ensures least { steps.old ≤ steps.new }
    ensures most { steps.new ≤ steps.old + 1 }
{
    if let Some(cell) = first_out_of_place(settings, cells) {
        return Err(KindsError::Place { kind: number, cell });
    }
    if let Some(cell) = first_change(alloc, cells, steps)? {
        return Err(KindsError::NotStill { kind: number, cell });
    }
    Ok(())
}
