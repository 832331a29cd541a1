//! The test of a turn.

ghost use Rattle.std.specs.Prelude.{◌≡◌, ◌+◌, ◌<◌, ◌≤◌, IfOk, IfErr, length};
ghost use Rattle.std.specs.List.{AllByRecursion};
ghost use Rattle.life_cells.specs.Cells.{alive};
ghost use Rattle.book_parts.specs.Limits.{AreProper, IsPlaced};
ghost use Rattle.recipe_turn.specs.Turn.{IsSound, AreFewDelays};
ghost use Rattle.recipe_turn.specs.Range.{IsWithinLimits};
ghost use Rattle.recipe_turn.specs.Refusals.{TurnIsRefused};

use crate::evolution::evolve;
use crate::gaps::test_gaps;
use crate::own_gliders::starting_gliders;
use crate::refusal::TurnRefusal;
use crate::turn_ends::{stated_end, test_front};
use book_parts::{RawTurn, Settings};
use life_cells::CellSet;
use life_steps::Steps;
use std::alloc::Global;
use std::sync::ledger::Ledger;

/// Refuses a turn that isn't sound at this kind; next is the kind that it leads to.
pub(crate) fn test_turn<L: Ledger>(
    alloc: Global,
    settings: &Settings,
    kind: &CellSet,
    next: &CellSet,
    turn: &RawTurn,
    steps: &mut Steps<L>,
) -> Result<(), TurnRefusal>
    requires settings { AreProper settings.now }
    requires kind { IsPlaced (alive kind.now) }
    requires next { IsPlaced (alive next.now) }
    requires some { 0 < length turn.now.delays }
    requires delays { AreFewDelays turn.now }
    requires end { IsWithinLimits turn.now.end }
    ensures sound { IfOk result (λ _. IsSound settings.now (alive kind.now) (alive next.now) turn.now) }
    ensures refusal { IfErr result (λ e. TurnIsRefused settings.now (alive kind.now) (alive next.now) turn.now e) }
    ensures least { steps.old ≤ steps.new }
    ensures most { steps.new ≤ steps.old + turn.now.n }
{
    let delays = turn.delays.items();
    test_gaps(delays, turn.n)?;
    let start = kind.union(&starting_gliders(alloc, settings, delays)?)?;
    let stated = stated_end(alloc, turn.end, next)?;
    let course = evolve(alloc, settings, delays, turn.n, &start, steps)?;
    if let Some(cell) = course.last.first_difference(&stated) {
        return Err(TurnRefusal::EndDiffers { cell });
    }
    if let Some(breach) = course.breaches.reach {
        return Err(TurnRefusal::Reach {
            generation: breach.generation,
            cell: breach.cell,
        });
    }
    if let Some(breach) = course.breaches.tail {
        return Err(TurnRefusal::Tail {
            generation: breach.generation,
            cell: breach.cell,
        });
    }
    test_front(settings, turn.end)
}
