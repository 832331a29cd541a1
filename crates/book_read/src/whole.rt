//! A whole book, where all that it has is stated.

ghost use Rattle.std.specs.Prelude.{◌≡◌, ◌≢◌, ◌∷◌, [], ◌+ℤ◌, ◌≤ℤ◌, IfOk, IfErr, MatchOption};
ghost use Rattle.std.specs.declared.option.Option.TheVariants.{Some};
ghost use Rattle.book_lines.specs.declared.book_word.BookWord.{BookWord};
ghost use Rattle.book_read.specs.Reading.{IsMissing, IsFirstMissing};
ghost use Rattle.book_read.specs.Stated.{coordinates, range_numbers, setting_numbers};
ghost use Rattle.book_read.specs.Book.{whole};
ghost use Rattle.book_read.specs.Drafted.{numbers_of, stated_of, HasNumber, HasPlace, HasRange, HasSettings, IsKept, IsUnfinished};

use crate::draft::Draft;
use crate::error::BookError;
use book_lines::{BOOK_WORDS, BookWord};
use book_parts::limits::WALL_MARGIN;
use book_parts::{Range, RawBook, Settings};
use life_cells::Cell;

/// The book that is stated.
pub fn book_of(draft: Draft) -> Result<RawBook, BookError>
    requires { IsKept draft }
    ensures ok { IfOk result (λ book. (stated_of draft ≡ whole book) × (book.kinds ≢ [])) }
    ensures far { IfOk result (λ book. (book.settings.wall +ℤ WALL_MARGIN) ≤ℤ book.settings.reach) }
    ensures err { IfErr result (λ e. IsUnfinished (stated_of draft) e) }
{
    if let Some(word) = first_missing(&draft) {
        return Err(BookError::Missing { word });
    }
    let settings = settings_of(&draft);
    let Settings { wall, reach, .. } = settings;
    if reach < wall + WALL_MARGIN {
        return Err(BookError::WallReach { wall, reach });
    }
    Ok(RawBook {
        settings,
        hand: draft.hand.unwrap(),
        kinds: draft.kinds,
        start: draft.start.unwrap(),
        turns: draft.turns,
        salvos: draft.salvos,
    })
}

/// The first word whose line is missing.
fn first_missing(draft: &Draft) -> Option<BookWord>
    ensures { MatchOption result ((word : BookWord) → IsMissing (stated_of draft.now) word → ⊥) (λ word. IsFirstMissing (stated_of draft.now) BOOK_WORDS word) }
{
    for word in &BOOK_WORDS {
        if draft.is_missing(*word) {
            return Some(*word);
        }
    }
    None
}

/// The settings, where each is stated.
fn settings_of(draft: &Draft) -> Settings
    requires { HasSettings draft.now }
    ensures { (stated_of draft.now).settings ≡ setting_numbers result }
{
    Settings {
        approach: number(draft, BookWord::Approach),
        wall: number(draft, BookWord::Wall),
        reach: number(draft, BookWord::Reach),
        corner: place(draft, BookWord::Corner),
        room: number(draft, BookWord::Room),
        span: number(draft, BookWord::Span),
        lanes: range(draft, BookWord::Lanes),
        delays: range(draft, BookWord::Delays),
    }
}

/// The number of a setting that has one.
fn number(draft: &Draft, word: BookWord) -> i64
    requires { HasNumber draft.now word }
    ensures { numbers_of draft.now.settings.items word ≡ Some (result ∷ []) }
{
    draft.numbers(word).unwrap()[0]
}

/// The place of a setting that is one.
fn place(draft: &Draft, word: BookWord) -> Cell
    requires { HasPlace draft.now word }
    ensures { numbers_of draft.now.settings.items word ≡ Some (coordinates result) }
{
    let numbers = draft.numbers(word).unwrap();
    Cell {
        y: numbers[1],
        x: numbers[0],
    }
}

/// The range of a setting that is one.
fn range(draft: &Draft, word: BookWord) -> Range
    requires { HasRange draft.now word }
    ensures { numbers_of draft.now.settings.items word ≡ Some (range_numbers result) }
{
    let numbers = draft.numbers(word).unwrap();
    Range {
        low: numbers[0],
        high: numbers[1],
        len: numbers[2] as u32,
    }
}
