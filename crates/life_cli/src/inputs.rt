//! The texts of a command, fetched and read.

ghost use Rattle.std.specs.Prelude.{◌≡◌, ◌≢◌, ◌^◌, IfOk, IfErr};
ghost use Rattle.life_cells.specs.Cells.{alive};
ghost use Rattle.life_cells.specs.Boxes.{IsInRange};
ghost use Rattle.life_io.specs.Counts.{IsLaterCount, Rose};
ghost use Rattle.life_io.specs.Texts.{Holds};
ghost use Rattle.book_parts.specs.Proper.{IsProperBook};
ghost use Rattle.life_cli.specs.Book.{ReadsAsBook};
ghost use Rattle.life_cli.specs.Stages.{HasCause};
ghost use Rattle.life_cli.specs.Inputs.{IsUnread, BookTextStops, HoldsBook, ReadsAsPattern, PatternTextStops, HoldsPattern};
ghost use Rattle.life_cli.specs.declared.status.Which.TheVariants.{Book};

use crate::fetch::fetch_text;
use crate::status::{Status, Which};
use book_parts::RawBook;
use book_text::{BookError, read_book};
use life_io::Depot;
use life_rle::{Pattern, RleError, read_rle};
use std::alloc::Global;

/// The book of a text.
fn book_of(alloc: Global, text: &[u8]) -> Result<RawBook, Status>
    ensures ok { IfOk result (λ book. ReadsAsBook text.now book) }
    ensures proper { IfOk result (λ book. IsProperBook book) }
    ensures err { IfErr result (λ status. HasCause ⊥ (BookTextStops text.now) status) }
{
    match read_book(alloc, text) {
        Ok(book) => Ok(book),
        Err(BookError::Memory) => Err(Status::Memory),
        Err(fault) => Err(Status::BadBookText(fault)),
    }
}

/// The pattern of a text.
fn pattern_of(alloc: Global, text: &[u8], which: Which) -> Result<Pattern, Status>
    ensures ok { IfOk result (λ pattern. ReadsAsPattern text.now (alive pattern.cells)) }
    ensures range { IfOk result (λ pattern. IsInRange (2 ^ 40) (alive pattern.cells)) }
    ensures err { IfErr result (λ status. HasCause ⊥ (PatternTextStops which text.now) status) }
{
    match read_rle(alloc, text) {
        Ok(pattern) => Ok(pattern),
        Err(RleError::Memory) => Err(Status::Memory),
        Err(fault) => Err(Status::BadRle { which, fault }),
    }
}

/// The book of a name.
pub(crate) fn fetch_book<D: Depot>(
    alloc: Global,
    depot: &mut D,
    name: &str,
) -> Result<RawBook, Status>
    ensures ok { IfOk result (λ book. HoldsBook (D.texts depot.old) name.now book) }
    ensures proper { IfOk result (λ book. IsProperBook book) }
    ensures err { IfErr result (λ status. HasCause (Rose (D.faults depot.old) (D.faults depot.new)) (IsUnread BookTextStops (D.texts depot.old) name.now Book) status) }
    ensures texts_stay { D.texts depot.new ≡ D.texts depot.old }
    ensures count { IsLaterCount (D.faults depot.old) (D.faults depot.new) }
    ensures no_fault { result ≢ Err Status.ReadFault → D.faults depot.new ≡ D.faults depot.old }
    ensures quiet_stays { D.quiet depot.old → D.quiet depot.new }
    ensures quiet_serves { D.quiet depot.old → Holds (D.texts depot.old) name.now → result ≢ Err Status.ReadFault }
{
    let text = fetch_text(alloc, depot, name, Which::Book)?;
    book_of(alloc, &text)
}

/// The pattern of a name, whose text is the one that is meant.
pub(crate) fn fetch_pattern<D: Depot>(
    alloc: Global,
    depot: &mut D,
    name: &str,
    which: Which,
) -> Result<Pattern, Status>
    ensures ok { IfOk result (λ pattern. HoldsPattern (D.texts depot.old) name.now (alive pattern.cells)) }
    ensures range { IfOk result (λ pattern. IsInRange (2 ^ 40) (alive pattern.cells)) }
    ensures err { IfErr result (λ status. HasCause (Rose (D.faults depot.old) (D.faults depot.new)) (IsUnread (PatternTextStops which) (D.texts depot.old) name.now which) status) }
    ensures texts_stay { D.texts depot.new ≡ D.texts depot.old }
    ensures count { IsLaterCount (D.faults depot.old) (D.faults depot.new) }
    ensures no_fault { result ≢ Err Status.ReadFault → D.faults depot.new ≡ D.faults depot.old }
    ensures quiet_stays { D.quiet depot.old → D.quiet depot.new }
    ensures quiet_serves { D.quiet depot.old → Holds (D.texts depot.old) name.now → result ≢ Err Status.ReadFault }
{
    let text = fetch_text(alloc, depot, name, which)?;
    pattern_of(alloc, &text, which)
}
