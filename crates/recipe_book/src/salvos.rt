//! The sound salvos of a book.

ghost use Rattle.std.specs.Prelude.{◌≡◌, ◌+◌, ◌*◌, ◌≤◌, IfOk, OnOk, length};
ghost use Rattle.std.specs.List.{AllByRecursion};
ghost use Rattle.life_cells.specs.Cells.{alive};
ghost use Rattle.book_parts.specs.Proper.{IsProperSalvo};
ghost use Rattle.recipe_book.specs.Checked.{raw_salvos};
ghost use Rattle.recipe_book.specs.Entries.{AreTheSoundSalvos};
ghost use Rattle.recipe_book.specs.Verdicts.{IsSalvoVerdict};
ghost use Rattle.recipe_book.specs.Accepting.{IsJudgedSalvo, IsKeptSalvo, AddsVerdicts};
ghost use Rattle.recipe_book.specs.Refusals.{most_hit_generations};
ghost use Rattle.recipe_hit.specs.declared.limits.TheConstants.{MOST_COUNTED};

use crate::verdict::Verdict;
use book_parts::RawSalvo;
use life_cells::NoMemory;
use life_steps::Steps;
use recipe_hit::laws::sound_salvos_have_no_refusal;
use recipe_hit::{CheckedSalvo, Hand, SalvoRefusal, check_salvo};
use std::alloc::Global;
use std::sync::ledger::Ledger;

/// The salvo where it is sound, and else the cause.
fn judge_salvo<L: Ledger>(
    alloc: Global,
    hand: &Hand,
    salvo: RawSalvo,
    steps: &mut Steps<L>,
) -> Result<Result<CheckedSalvo, SalvoRefusal>, NoMemory>
    requires { IsProperSalvo salvo }
    ensures judged { IfOk result (λ judged. IsJudgedSalvo hand.now salvo judged) }
    ensures least { steps.old ≤ steps.new }
    ensures most { steps.new ≤ steps.old + MOST_COUNTED * length salvo.lanes }
{
    match check_salvo(alloc, hand, salvo, steps) {
        Ok(checked) => Ok(Ok(checked)),
        Err((_, SalvoRefusal::Memory)) => Err(NoMemory),
        Err((_, refusal)) => Ok(Err(refusal)),
    }
}

/// The sound salvos, in their order. A verdict on each salvo is added to the verdicts.
pub(crate) fn sound_salvos<L: Ledger>(
    alloc: Global,
    hand: &Hand,
    salvos: Vec<RawSalvo>,
    verdicts: &mut Vec<Verdict>,
    steps: &mut Steps<L>,
) -> Result<Vec<CheckedSalvo>, NoMemory>
    requires { AllByRecursion IsProperSalvo salvos.items }
    ensures sound { IfOk result (λ found. AreTheSoundSalvos (alive hand.now) salvos.items (raw_salvos found.items)) }
    ensures kept { IfOk result (λ found. AllByRecursion (IsKeptSalvo hand.now) found.items) }
    ensures verdicts { OnOk result (AddsVerdicts (IsSalvoVerdict (alive hand.now)) salvos.items verdicts.old.items verdicts.new.items) }
    ensures least { steps.old ≤ steps.new }
    ensures most { steps.new ≤ steps.old + most_hit_generations salvos.items }
{
    // This says that a sound salvo has no refusal; it does nothing.
    sound_salvos_have_no_refusal();
    let mut found = Vec::new(alloc);
    for salvo in salvos {
        match judge_salvo(alloc, hand, salvo, steps)? {
            Ok(checked) => {
                found.push(checked)?;
                verdicts.push(Verdict::Accepted)?;
            }
            Err(refusal) => verdicts.push(Verdict::Salvo(refusal))?,
        }
    }
    Ok(found)
}
