//! The turn that a list of delays adds.

ghost use Rattle.std.specs.Prelude.{◌≡◌, ◌+◌, ◌≤◌, IfOk, MatchOption, length};
ghost use Rattle.std.specs.List.{Contains};
ghost use Rattle.recipe_book.specs.Checked.{said_of};
ghost use Rattle.book_parts.specs.declared.turn.RawTurn.{RawTurn};
ghost use Rattle.find_order.specs.declared.candidate.Candidate.TheVariants.{Delays};
ghost use Rattle.find_order.specs.Fit.{AreDelaysOfTurn};
ghost use Rattle.recipe_find.specs.declared.limits.TheConstants.{MOST_GENERATIONS};
ghost use Rattle.recipe_find.specs.Adding.{AddsTurn, known};

use crate::limits::{are_delays, is_end};
use crate::names::new_name;
use book_parts::{Numbers, RawTurn};
use find_turn::find_turn;
use find_turn::laws::one_turn_is_the_least;
use life_cells::NoMemory;
use life_steps::Steps;
use recipe_book::CheckedBook;
use std::alloc::Global;
use std::sync::ledger::Ledger;

/// The turn that the kind and list of delays with this number add to a book that has none of them; None exactly where they add none.
pub(crate) fn found_turn<L: Ledger>(
    alloc: Global,
    book: &CheckedBook,
    number: u32,
    kind: usize,
    delays: &Numbers,
    steps: &mut Steps<L>,
) -> Result<Option<RawTurn>, NoMemory>
    requires fit { AreDelaysOfTurn (length book.now.kinds) kind delays.now }
    requires unknown { Contains (known (said_of book.now)) (Delays kind delays.now) → ⊥ }
    ensures found { IfOk result (λ found. MatchOption found ((turn : RawTurn) → AddsTurn (said_of book.now) number (Delays kind delays.now) turn → ⊥)
        (AddsTurn (said_of book.now) number (Delays kind delays.now))) }
    ensures least { steps.old ≤ steps.new }
    ensures most { steps.new ≤ steps.old + MOST_GENERATIONS }
{
    // This says that one turn at most is the least; it does nothing.
    one_turn_is_the_least();
    if !are_delays(delays.items()) {
        return Ok(None);
    }
    let kinds = book.checked_kinds();
    let settings = book.settings();
    let Some(found) = find_turn(alloc, settings, kinds, kind, delays.items(), steps)? else {
        return Ok(None);
    };
    if !is_end(found.end) {
        return Ok(None);
    }
    let Some(name) = new_name(alloc, book, number)? else {
        return Ok(None);
    };
    Ok(Some(RawTurn {
        name,
        kind,
        end: found.end,
        n: found.n,
        delays: delays.copy()?,
    }))
}
