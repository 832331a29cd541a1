//! The canonical text of a whole book.

ghost use Rattle.std.specs.Prelude.{◌≡◌, ℕ, OnOk, OnErr, IfOk};
ghost use Rattle.life_rle.specs.Written.{Appends};
ghost use Rattle.book_parts.specs.Proper.{IsProperBook};
ghost use Rattle.book_read.specs.Book.{Says};
ghost use Rattle.book_write.specs.Canonical.{IsBookText};

use crate::kinds::{push_hand, push_kinds, push_start};
use crate::salvos::push_salvos;
use crate::settings::{push_settings, push_version};
use crate::turns::push_turns;
use book_parts::RawBook;
use life_cells::NoMemory;
use std::alloc::Global;

/// The canonical text of a book.
fn text_of_book(alloc: Global, book: &RawBook) -> Result<Vec<u8>, NoMemory>
    requires proper { IsProperBook book.now }
    ensures { IfOk result (λ text. IsBookText book.now text.items) }
{
    let mut text = Vec::new(alloc);
    push_version(&mut text)?;
    push_settings(&mut text, &book.settings)?;
    push_hand(alloc, &mut text, &book.hand)?;
    push_kinds(alloc, &mut text, &book.kinds)?;
    push_start(&mut text, &book.kinds, book.start)?;
    push_turns(&mut text, &book.kinds, &book.turns)?;
    push_salvos(alloc, &mut text, &book.salvos)?;
    Ok(text)
}

/// Appends the canonical text of a book, which is read back as the same book. After a refusal `into` is as before.
///
/// # Errors
///
/// Only for want of memory.
pub fn write_book(alloc: Global, book: &RawBook, into: &mut Vec<u8>) -> Result<(), NoMemory>
    requires proper { IsProperBook book.now }
    ensures ok { OnOk result (Appends into.old.items into.new.items (IsBookText book.now)) }
    ensures read_back { OnOk result (Appends into.old.items into.new.items (λ text. Says text book.now)) }
    ensures err { OnErr result (into.new.items ≡ into.old.items) }
{
    let text = text_of_book(alloc, book)?;
    into.extend_from_slice(&text)?;
    Ok(())
}
