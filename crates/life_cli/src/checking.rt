//! The command `check`.

ghost use Rattle.std.specs.Prelude.{◌≡◌, ◌≢◌, ◌≤◌};
ghost use Rattle.life_io.specs.Counts.{IsLaterCount, Rose};
ghost use Rattle.life_io.specs.Texts.{Holds};
ghost use Rattle.book_parts.specs.Proper.{IsProperBook};
ghost use Rattle.life_cli.specs.Stages.{EndWith};
ghost use Rattle.life_cli.specs.Verdicts.{judging, check};

use crate::books::test_book;
use crate::inputs::fetch_book;
use crate::status::Status;
use crate::verdict_lines::{text_of_verdicts, titles_of};
use book_parts::RawBook;
use life_io::Depot;
use life_steps::Steps;
use std::alloc::Global;
use std::sync::ledger::Ledger;

/// The text that answers `check` for a book that was read.
fn report_on<L: Ledger>(
    alloc: Global,
    book: RawBook,
    steps: &mut Steps<L>,
) -> Result<Vec<u8>, Status>
    requires { IsProperBook book }
    ensures ends { EndWith (judging book) ⊥ steps.old steps.new result }
    ensures steps { steps.old ≤ steps.new }
{
    let titles = titles_of(alloc, &book)?;
    let (_, verdicts) = test_book(alloc, book, steps)?;
    let text = text_of_verdicts(alloc, &titles, &verdicts)?;
    Ok(text)
}

/// The text that answers `check` for the text of this name.
pub(crate) fn check<D: Depot, L: Ledger>(
    alloc: Global,
    name: &str,
    depot: &mut D,
    steps: &mut Steps<L>,
) -> Result<Vec<u8>, Status>
    ensures ends { EndWith (check (D.texts depot.old) name.now) (Rose (D.faults depot.old) (D.faults depot.new)) steps.old steps.new result }
    ensures steps { steps.old ≤ steps.new }
    ensures texts_stay { D.texts depot.new ≡ D.texts depot.old }
    ensures count { IsLaterCount (D.faults depot.old) (D.faults depot.new) }
    ensures no_fault { result ≢ Err Status.ReadFault → D.faults depot.new ≡ D.faults depot.old }
    ensures quiet_stays { D.quiet depot.old → D.quiet depot.new }
    ensures quiet_serves { D.quiet depot.old → Holds (D.texts depot.old) name.now → result ≢ Err Status.ReadFault }
{
    let book = fetch_book(alloc, depot, name)?;
    report_on(alloc, book, steps)
}
