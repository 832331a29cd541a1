//! The command `extend`.

ghost use Rattle.std.specs.Prelude.{◌≡◌, ◌≢◌, ◌+◌, ◌*◌, ◌≤◌, IfOk, IfErr};
ghost use Rattle.life_io.specs.Counts.{IsLaterCount, Rose};
ghost use Rattle.life_io.specs.Texts.{Holds};
ghost use Rattle.book_parts.specs.Proper.{IsProperBook};
ghost use Rattle.recipe_find.specs.declared.limits.TheConstants.{MOST_GENERATIONS};
ghost use Rattle.life_cli.specs.Stages.{HasCause, EndWith};
ghost use Rattle.life_cli.specs.Extended.{ComesTo, FinderRefuses, IsWholeText, finding, extending, extend};

use crate::books::test_book;
use crate::inputs::fetch_book;
use crate::status::Status;
use book_parts::RawBook;
use book_text::write_book;
use life_cells::NoMemory;
use life_io::Depot;
use life_steps::Steps;
use recipe_book::CheckedBook;
use recipe_find::{FindError, extend as extended};
use std::alloc::Global;
use std::sync::ledger::Ledger;

/// A checked book, and what its finder adds.
fn find<L: Ledger>(
    alloc: Global,
    book: &CheckedBook,
    budget: u32,
    steps: &mut Steps<L>,
) -> Result<RawBook, Status>
    ensures ok { IfOk result (λ whole. ComesTo book.now budget whole) }
    ensures proper { IfOk result (λ whole. IsProperBook whole) }
    ensures err { IfErr result (λ status. HasCause ⊥ (FinderRefuses book.now budget) status) }
    ensures least { steps.old ≤ steps.new }
    ensures most { steps.new ≤ steps.old + MOST_GENERATIONS * budget }
{
    // This says what holds for a checked book.
    let _ = book.settings();
    match extended(alloc, book, budget, steps) {
        Ok(whole) => Ok(whole),
        Err(FindError::Memory) => Err(Status::Memory),
        Err(FindError::BookFull { what, count }) => Err(Status::BookFull { what, count }),
    }
}

/// The text of a book.
fn text_of_book(alloc: Global, book: &RawBook) -> Result<Vec<u8>, NoMemory>
    requires { IsProperBook book.now }
    ensures { IfOk result (λ bytes. IsWholeText book.now bytes.items) }
{
    let mut text = Vec::new(alloc);
    write_book(alloc, book, &mut text)?;
    Ok(text)
}

/// The text of what a checked book and its finder come to.
fn text_of_whole<L: Ledger>(
    alloc: Global,
    book: &CheckedBook,
    budget: u32,
    steps: &mut Steps<L>,
) -> Result<Vec<u8>, Status>
    ensures ends { EndWith (finding book.now budget) ⊥ steps.old steps.new result }
    ensures steps { steps.old ≤ steps.new }
{
    let whole = find(alloc, book, budget, steps)?;
    let text = text_of_book(alloc, &whole)?;
    Ok(text)
}

/// The text that answers `extend` for a book that was read.
fn extension_of<L: Ledger>(
    alloc: Global,
    book: RawBook,
    budget: u32,
    steps: &mut Steps<L>,
) -> Result<Vec<u8>, Status>
    requires { IsProperBook book }
    ensures ends { EndWith (extending book budget) ⊥ steps.old steps.new result }
    ensures steps { steps.old ≤ steps.new }
{
    let (book, _) = test_book(alloc, book, steps)?;
    text_of_whole(alloc, &book, budget, steps)
}

/// The text that answers `extend` for the text of this name.
pub(crate) fn extend<D: Depot, L: Ledger>(
    alloc: Global,
    name: &str,
    budget: u32,
    depot: &mut D,
    steps: &mut Steps<L>,
) -> Result<Vec<u8>, Status>
    ensures ends { EndWith (extend (D.texts depot.old) name.now budget) (Rose (D.faults depot.old) (D.faults depot.new)) steps.old steps.new result }
    ensures steps { steps.old ≤ steps.new }
    ensures texts_stay { D.texts depot.new ≡ D.texts depot.old }
    ensures count { IsLaterCount (D.faults depot.old) (D.faults depot.new) }
    ensures no_fault { result ≢ Err Status.ReadFault → D.faults depot.new ≡ D.faults depot.old }
    ensures quiet_stays { D.quiet depot.old → D.quiet depot.new }
    ensures quiet_serves { D.quiet depot.old → Holds (D.texts depot.old) name.now → result ≢ Err Status.ReadFault }
{
    let book = fetch_book(alloc, depot, name)?;
    extension_of(alloc, book, budget, steps)
}
