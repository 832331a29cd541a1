//! Laws of what is written: a book has one canonical text, and the text says the book.

ghost use Rattle.std.specs.Prelude.{◌≡◌, ℕ, List};
ghost use Rattle.book_parts.specs.Said.{Said};
ghost use Rattle.book_parts.specs.Proper.{IsProperBook};
ghost use Rattle.book_read.specs.Book.{Says};
ghost use Rattle.book_write.specs.Canonical.{IsBookText};

use life_rle::written_laws::sets_have_one_word;

/// A book has one canonical text.
pub fn books_have_one_text()
    ensures { (book : Said) (text other : List ℕ) → IsBookText book text → IsBookText book other → text ≡ other }
{
    sets_have_one_word();
}

/// The canonical text of a proper book says the book.
pub fn book_texts_are_read()
    ensures { (book : Said) (text : List ℕ) → IsProperBook book → IsBookText book text → Says text book }
{}
