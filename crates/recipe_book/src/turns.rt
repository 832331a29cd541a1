//! The sound turns of a book.

ghost use Rattle.std.specs.Prelude.{◌≡◌, ◌+◌, ◌≤◌, IfOk, OnOk, length};
ghost use Rattle.std.specs.List.{AllByRecursion};
ghost use Rattle.book_parts.specs.Limits.{AreProper};
ghost use Rattle.book_parts.specs.Proper.{IsProperTurn};
ghost use Rattle.recipe_turn.specs.Checked.{raws};
ghost use Rattle.recipe_book.specs.Entries.{AreTheSound};
ghost use Rattle.recipe_book.specs.Verdicts.{IsTurnVerdict};
ghost use Rattle.recipe_book.specs.Accepting.{IsJudgedTurn, IsKeptTurn, AddsVerdicts};
ghost use Rattle.recipe_book.specs.Refusals.{generations};

use crate::verdict::Verdict;
use book_parts::{RawTurn, Settings};
use life_cells::NoMemory;
use life_steps::Steps;
use recipe_turn::laws::sound_turns_have_no_refusal;
use recipe_turn::{CheckedTurn, Kinds, TurnRefusal, check_turn};
use std::alloc::Global;
use std::sync::ledger::Ledger;

/// The turn where it is sound, and else the cause.
fn judge_turn<L: Ledger>(
    alloc: Global,
    settings: &Settings,
    kinds: &Kinds,
    turn: RawTurn,
    steps: &mut Steps<L>,
) -> Result<Result<CheckedTurn, TurnRefusal>, NoMemory>
    requires settings { AreProper settings.now }
    requires same { kinds.now.settings ≡ settings.now }
    requires turn { IsProperTurn (length kinds.now.raw) turn }
    ensures judged { IfOk result (λ judged. IsJudgedTurn settings.now kinds.now.raw turn judged) }
    ensures least { steps.old ≤ steps.new }
    ensures most { steps.new ≤ steps.old + turn.n }
{
    match check_turn(alloc, settings, kinds, turn, steps) {
        Ok(checked) => Ok(Ok(checked)),
        Err((_, TurnRefusal::Memory)) => Err(NoMemory),
        Err((_, refusal)) => Ok(Err(refusal)),
    }
}

/// The sound turns, in their order. A verdict on each turn is added to the verdicts.
pub(crate) fn sound_turns<L: Ledger>(
    alloc: Global,
    settings: &Settings,
    kinds: &Kinds,
    turns: Vec<RawTurn>,
    verdicts: &mut Vec<Verdict>,
    steps: &mut Steps<L>,
) -> Result<Vec<CheckedTurn>, NoMemory>
    requires settings { AreProper settings.now }
    requires same { kinds.now.settings ≡ settings.now }
    requires turns { AllByRecursion (IsProperTurn (length kinds.now.raw)) turns.items }
    ensures sound { IfOk result (λ found. AreTheSound settings.now kinds.now.raw turns.items (raws found.items)) }
    ensures kept { IfOk result (λ found. AllByRecursion (IsKeptTurn settings.now kinds.now.raw) found.items) }
    ensures verdicts { OnOk result (AddsVerdicts (IsTurnVerdict settings.now kinds.now.raw) turns.items verdicts.old.items verdicts.new.items) }
    ensures least { steps.old ≤ steps.new }
    ensures most { steps.new ≤ steps.old + generations turns.items }
{
    // This says that a sound turn has no refusal; it does nothing.
    sound_turns_have_no_refusal();
    let mut found = Vec::new(alloc);
    for turn in turns {
        match judge_turn(alloc, settings, kinds, turn, steps)? {
            Ok(checked) => {
                found.push(checked)?;
                verdicts.push(Verdict::Accepted)?;
            }
            Err(refusal) => verdicts.push(Verdict::Turn(refusal))?,
        }
    }
    Ok(found)
}
