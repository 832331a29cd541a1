//! The words that a line of a book may begin with, behind its first line.

ghost use Rattle.std.specs.Prelude.{◌≡◌};
ghost use Rattle.book_lines.specs.Words.{word_text, spelling};
ghost use Rattle.book_lines.specs.Reads.{Reads};

use crate::book_word::{BOOK_WORDS, BookWord};
use crate::items::is_word;

/// The first word of a line.
#[derive(Clone, Copy, Debug, PartialEq, Eq)]
pub enum Keyword {
    /// A word that every book has.
    Book(BookWord),
    /// `turn`
    Turn,
    /// `salvo`
    Salvo,
}

/// The word of every book that is written so.
fn book_word_of(word: &[u8]) -> Option<BookWord>
    ensures { Reads (λ w. word.now ≡ word_text w) result }
{
    for book_word in &BOOK_WORDS {
        if is_word(word, book_word.text()) {
            return Some(*book_word);
        }
    }
    None
}

/// The first word that is written so.
pub fn keyword_of(word: &[u8]) -> Option<Keyword>
    ensures { Reads (λ k. word.now ≡ spelling k) result }
{
    if is_word(word, "turn") {
        return Some(Keyword::Turn);
    }
    if is_word(word, "salvo") {
        return Some(Keyword::Salvo);
    }
    match book_word_of(word) {
        Some(book_word) => Some(Keyword::Book(book_word)),
        None => None,
    }
}
