//! The search for a turn.

ghost use Rattle.std.specs.Prelude.{◌≡◌, ◌+◌, ◌<◌, ◌≤◌, pos, ◌+ℤ◌, ◌≤ℤ◌, IfOk, MatchOption, length};
ghost use Rattle.std.specs.List.{AllByRecursion};
ghost use Rattle.book_parts.specs.Limits.{AreProper};
ghost use Rattle.book_parts.specs.Proper.{IsKindNumber, IsDelay};
ghost use Rattle.book_parts.specs.declared.limits.TheConstants.{LONGEST_TURN};
ghost use Rattle.find_turn.specs.Found.{last_delay, IsLeastTurn, HasNoTurn};
ghost use Rattle.find_turn.specs.declared.found_turn.TheConstants.{LONGEST_WAIT};

use crate::found_turn::FoundTurn;
use crate::search::first_end;
use crate::tried::tried_numbers;
use book_parts::Settings;
use life_cells::NoMemory;
use life_steps::Steps;
use recipe_turn::{Kinds, first_narrow, kind_cells, starting_gliders};
use std::alloc::Global;
use std::sync::ledger::Ledger;

/// The turn of these delays at the kind with this number: the least number of generations at which some end makes it sound, and of the ends
/// at it a closing one before any other, then the one that leads to the first kind. The numbers from 20 to 4,096 more than the last delay are
/// tried, as far as 65,536; None exactly where none of them has a sound end. Each generation is stepped once and looked at once, and the
/// search stops where no later one can be sound. Whether the numbers of the end are within the limits of a book isn't looked at.
pub fn find_turn<L: Ledger>(
    alloc: Global,
    settings: &Settings,
    kinds: &Kinds,
    kind: usize,
    delays: &[i64],
    steps: &mut Steps<L>,
) -> Result<Option<FoundTurn>, NoMemory>
    requires settings { AreProper settings.now }
    requires same { kinds.now.settings ≡ settings.now }
    requires kind { IsKindNumber (length kinds.now.raw) kind }
    requires some { 0 < length delays.now }
    requires delays { AllByRecursion IsDelay delays.now }
    ensures found { IfOk result (λ found. MatchOption found (HasNoTurn settings.now kinds.now.raw kind delays.now) (IsLeastTurn settings.now kinds.now.raw kind delays.now)) }
    ensures least { steps.old ≤ steps.new }
    ensures most { pos steps.new ≤ℤ (pos steps.old +ℤ (last_delay delays.now +ℤ LONGEST_WAIT)) }
    ensures longest { steps.new ≤ steps.old + LONGEST_TURN }
{
    if first_narrow(delays).is_some() {
        return Ok(None);
    }
    let gliders = starting_gliders(alloc, settings, delays)?;
    let start = kind_cells(kinds.raw(), kind).union(&gliders)?;
    first_end(
        alloc,
        settings,
        kinds.raw(),
        delays,
        &start,
        tried_numbers(delays),
        steps,
    )
}
