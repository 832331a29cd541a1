//! Whether a book has room for what it says.

ghost use Rattle.std.specs.Prelude.{◌≡◌, IfOk, IfErr, sum_by, length, ◌+◌, ◌<◌, ◌≤◌};
ghost use Rattle.life_cells.specs.Cells.{in_order};
ghost use Rattle.book_parts.specs.Proper.{live_cells};
ghost use Rattle.book_parts.specs.declared.kind.RawKind.{RawKind};
ghost use Rattle.book_parts.specs.declared.salvo.RawSalvo.{RawSalvo};
ghost use Rattle.recipe_find.specs.Refusals.{HasRoom, Overfills};

use crate::error::{FindError, Full};
use book_parts::limits::{MOST_CELLS, MOST_SALVOS, MOST_TURNS};
use book_parts::{RawBook, RawKind, RawSalvo};
use life_cells::NoMemory;

/// So many cells and so many more; where that is no number of 64 bits there is no memory for them.
fn sum(cells: u64, more: usize) -> Result<u64, NoMemory>
    ensures { IfOk result (λ sum. sum ≡ cells + more) }
{
    cells.checked_add(more as u64).ok_or(NoMemory)
}

/// So many cells and the live cells of kinds.
fn with_kinds(cells: u64, kinds: &[RawKind]) -> Result<u64, NoMemory>
    ensures { IfOk result (λ sum. sum ≡ cells + sum_by (λ (kind : RawKind). length (in_order kind.cells)) kinds.now) }
{
    let mut count = cells;
    for kind in kinds {
        count = sum(count, kind.cells.len())?;
    }
    Ok(count)
}

/// So many cells and the live cells of products.
fn with_salvos(cells: u64, salvos: &[RawSalvo]) -> Result<u64, NoMemory>
    ensures { IfOk result (λ sum. sum ≡ cells + sum_by (λ (salvo : RawSalvo). length (in_order salvo.product)) salvos.now) }
{
    let mut count = cells;
    for salvo in salvos {
        count = sum(count, salvo.product.len())?;
    }
    Ok(count)
}

/// The live cells of all bodies of a book.
fn live_cells(book: &RawBook) -> Result<u64, NoMemory>
    ensures { IfOk result (λ count. count ≡ live_cells book.now) }
{
    let hand = book.hand.len() as u64;
    let kinds = with_kinds(hand, &book.kinds)?;
    with_salvos(kinds, &book.salvos)
}

/// Refuses a count that is over its limit.
fn test_count(what: Full, count: u64, most: u64) -> Result<(), FindError>
    ensures within { IfOk result (λ _. count ≤ most) }
    ensures over { IfErr result (λ e. (e ≡ FindError.BookFull what count) × (most < count)) }
{
    if count > most {
        return Err(FindError::BookFull { what, count });
    }
    Ok(())
}

/// Refuses a book that has more than a book may have.
pub(crate) fn test_room(book: &RawBook) -> Result<(), FindError>
    ensures room { IfOk result (λ _. HasRoom book.now) }
    ensures full { IfErr result (λ e. Overfills book.now e) }
{
    test_count(Full::Salvos, book.salvos.len() as u64, MOST_SALVOS)?;
    test_count(Full::Turns, book.turns.len() as u64, MOST_TURNS)?;
    test_count(Full::Cells, live_cells(book)?, MOST_CELLS)
}
