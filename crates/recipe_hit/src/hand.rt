//! The hand.

ghost use Rattle.std.specs.Prelude.{◌≡◌, ◌+◌, ◌≤◌, IfOk, IfErr};
ghost use Rattle.life_cells.specs.Cells.{alive};
ghost use Rattle.book_parts.specs.Proper.{IsProperHand};
ghost use Rattle.recipe_hit.specs.Hands.{IsHand};
ghost use Rattle.recipe_hit.specs.Refusals.{HandIsRefused};

use crate::refusal::HandRefusal;
use life_cells::{CellSet, NoMemory};
use life_steps::Steps;
use life_tiles::first_change;
use std::alloc::Global;
use std::marker::Model;
use std::sync::ledger::Ledger;

/// A hand that was checked: a still life with coordinates from 0 to 2^30.
#[derive(Debug, Drop)]
pub struct Hand {
    cells: CellSet,
}

impl Model for Hand {
    ghost use Rattle.life_cells.specs.Cells.{Cells, alive, coded_cells};
    ghost use Rattle.recipe_hit.specs.Hands.{IsHand};

    ghost Value = { Cells };

    ghost coded = { coded_cells };

    ghost view = { λ h. h.cells };

    ghost invariant = { λ h. IsHand (alive h.cells) };
}

impl Hand {
    /// The hand's cells at place (0,0). It takes no memory.
    pub fn cells(&self) -> &CellSet
        ensures cells { result.now ≡ self.now }
        ensures hand { IsHand (alive self.now) }
    {
        &self.cells
    }
}

/// A hand that is still; its cells are handed back where they are not. One generation is counted.
///
/// # Errors
/// `NotStill` exactly where a cell changes, with the first such cell; `Memory` for want of memory.
pub fn check_hand<L: Ledger>(
    alloc: Global,
    hand: CellSet,
    steps: &mut Steps<L>,
) -> Result<Hand, (CellSet, HandRefusal)>
    requires { IsProperHand (alive hand) }
    ensures same { IfOk result (λ checked. checked ≡ hand) }
    ensures hand { IfOk result (λ checked. IsHand (alive checked)) }
    ensures back { IfErr result (λ e. e.0 ≡ hand) }
    ensures refusal { IfErr result (λ e. HandIsRefused (alive hand) e.1) }
    ensures least { steps.old ≤ steps.new }
    ensures most { steps.new ≤ steps.old + 1 }
{
    match first_change(alloc, &hand, steps) {
        Ok(None) => Ok(Hand { cells: hand }),
        Ok(Some(cell)) => Err((hand, HandRefusal::NotStill { cell })),
        Err(NoMemory) => Err((hand, HandRefusal::Memory)),
    }
}
