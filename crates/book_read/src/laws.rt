//! Laws of what a text says: it says one book at most, it has one refusal, and not both. So an answer comes exactly where
//! its definition says.

ghost use Rattle.std.specs.Prelude.{◌≡◌, ◌≢◌, ℕ, List, ◌+ℤ◌, ◌≤ℤ◌, pos};
ghost use Rattle.book_parts.specs.Proper.{IsProperBook};
ghost use Rattle.book_read.specs.Book.{Said, Says, StopsWith};
ghost use Rattle.book_read.specs.declared.error.BookError.{BookError};

use crate::error::BookError;
use book_lines::laws::{lines_have_one_fault, lines_state_one_thing, stating_lines_have_no_fault};
use book_parts::limits::WALL_MARGIN;

/// A text says one book at most.
pub fn texts_say_one_book()
    ensures { (text : List ℕ) (a b : Said) → Says text a → Says text b → a ≡ b }
{
    lines_state_one_thing();
    lines_have_one_fault();
    stating_lines_have_no_fault();
}

/// A text has one refusal, want of memory aside.
pub fn texts_have_one_refusal()
    ensures { (text : List ℕ) (e f : BookError) → StopsWith text e → StopsWith text f → e ≢ BookError.Memory → f ≢ BookError.Memory → e ≡ f }
{
    lines_state_one_thing();
    lines_have_one_fault();
    stating_lines_have_no_fault();
}

/// A text that says a book whose reach is far enough has no refusal, want of memory aside.
pub fn books_have_no_refusal()
    ensures { (text : List ℕ) (said : Said) (e : BookError) → Says text said → (said.settings.wall +ℤ WALL_MARGIN) ≤ℤ said.settings.reach → StopsWith text e → e ≡ BookError.Memory }
{
    lines_state_one_thing();
    lines_have_one_fault();
    stating_lines_have_no_fault();
}

/// What a text says is proper, where the reach is far enough.
pub fn texts_say_proper_books()
    ensures { (text : List ℕ) (said : Said) → Says text said → (said.settings.wall +ℤ WALL_MARGIN) ≤ℤ said.settings.reach → IsProperBook said }
{}
