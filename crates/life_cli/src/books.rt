//! A book's tests.

ghost use Rattle.std.specs.Prelude.{◌≡◌, ◌≢◌, ◌+◌, ◌≤◌, IfOk, IfErr};
ghost use Rattle.life_cells.specs.Cells.{alive};
ghost use Rattle.book_parts.specs.Proper.{IsProperBook};
ghost use Rattle.recipe_book.specs.Verdicts.{AreVerdicts};
ghost use Rattle.life_cli.specs.Book.{PassesTests, TestsRefuse, most_tested};
ghost use Rattle.life_cli.specs.Stages.{HasCause};

use crate::status::Status;
use book_parts::RawBook;
use life_steps::Steps;
use recipe_book::{BookRefusal, CheckedBook, Verdict, check_book};
use std::alloc::Global;
use std::sync::ledger::Ledger;

/// The book, once it passed its tests, and the verdicts on its entries.
pub(crate) fn test_book<L: Ledger>(
    alloc: Global,
    book: RawBook,
    steps: &mut Steps<L>,
) -> Result<(CheckedBook, Vec<Verdict>), Status>
    requires { IsProperBook book }
    ensures ok { IfOk result (λ r. PassesTests book r.0) }
    ensures verdicts { IfOk result (λ r. AreVerdicts book.settings book.kinds (alive book.hand) book.turns book.salvos r.1.items) }
    ensures err { IfErr result (λ status. HasCause ⊥ (TestsRefuse book) status) }
    ensures least { steps.old ≤ steps.new }
    ensures most { steps.new ≤ steps.old + most_tested book }
{
    match check_book(alloc, book, steps) {
        Ok((checked, verdicts)) => {
            // This says what holds for a checked book.
            let _ = checked.settings();
            Ok((checked, verdicts))
        }
        Err(BookRefusal::Memory) => Err(Status::Memory),
        Err(refusal) => Err(Status::BadBook(refusal)),
    }
}
