//! The salvo that a list of lanes adds.

ghost use Rattle.std.specs.Prelude.{◌≡◌, ◌+◌, ◌≤◌, IfOk, IfSome, IfNone, MatchOption};
ghost use Rattle.life_cells.specs.Cells.{alive};
ghost use Rattle.std.specs.List.{Contains};
ghost use Rattle.recipe_book.specs.Checked.{said_of};
ghost use Rattle.book_parts.specs.declared.salvo.RawSalvo.{RawSalvo};
ghost use Rattle.find_order.specs.declared.candidate.Candidate.TheVariants.{Lanes};
ghost use Rattle.find_order.specs.Fit.{AreLanesOfSalvo};
ghost use Rattle.find_salvo.specs.Salvos.{IsSalvoOutcome, HasNoSalvo};
ghost use Rattle.recipe_find.specs.declared.limits.TheConstants.{MOST_GENERATIONS};
ghost use Rattle.recipe_find.specs.Adding.{AddsSalvo, known};

use crate::limits::is_outcome;
use crate::names::new_name;
use book_parts::{Numbers, RawSalvo};
use find_salvo::laws::lanes_have_one_outcome;
use find_salvo::{Outcome, SalvoHits};
use life_cells::NoMemory;
use life_steps::Steps;
use recipe_book::CheckedBook;
use std::alloc::Global;
use std::sync::ledger::Ledger;

/// The outcome of gliders of a list of lanes; None exactly where it has none.
fn outcome_of<L: Ledger>(
    alloc: Global,
    lanes: &Numbers,
    hits: &mut SalvoHits<'_>,
    steps: &mut Steps<L>,
) -> Result<Option<Outcome>, NoMemory>
    requires fit { AreLanesOfSalvo lanes.now }
    ensures hand { hits.new.hand ≡ hits.old.hand }
    ensures some { IfOk result (λ found. IfSome found (IsSalvoOutcome (alive hits.old.hand) lanes.now)) }
    ensures none { IfOk result (λ found. IfNone found (HasNoSalvo (alive hits.old.hand) lanes.now)) }
    ensures least { steps.old ≤ steps.new }
    ensures most { steps.new ≤ steps.old + MOST_GENERATIONS }
{
    hits.outcome(alloc, lanes.items(), steps)
}

/// The salvo that the list of lanes with this number adds to a book that has none of it; None exactly where it adds none.
pub(crate) fn found_salvo<L: Ledger>(
    alloc: Global,
    book: &CheckedBook,
    number: u32,
    lanes: &Numbers,
    hits: &mut SalvoHits<'_>,
    steps: &mut Steps<L>,
) -> Result<Option<RawSalvo>, NoMemory>
    requires fit { AreLanesOfSalvo lanes.now }
    requires hand { hits.old.hand ≡ book.now.hand }
    requires unknown { Contains (known (said_of book.now)) (Lanes lanes.now) → ⊥ }
    ensures hand { hits.new.hand ≡ hits.old.hand }
    ensures found { IfOk result (λ found. MatchOption found ((salvo : RawSalvo) → AddsSalvo (said_of book.now) number (Lanes lanes.now) salvo → ⊥)
        (AddsSalvo (said_of book.now) number (Lanes lanes.now))) }
    ensures least { steps.old ≤ steps.new }
    ensures most { steps.new ≤ steps.old + MOST_GENERATIONS }
{
    // This says that lanes have one outcome at most; it does nothing.
    lanes_have_one_outcome();
    let Some(outcome) = outcome_of(alloc, lanes, hits, steps)? else {
        return Ok(None);
    };
    if !is_outcome(&outcome) {
        return Ok(None);
    }
    let Some(name) = new_name(alloc, book, number)? else {
        return Ok(None);
    };
    Ok(Some(RawSalvo {
        name,
        lanes: lanes.copy()?,
        product: outcome.product,
        hand: outcome.hand,
    }))
}
