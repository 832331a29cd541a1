//! Why a book is not read.

ghost use Rattle.std.specs.Prelude.{◌≡◌};
ghost use Rattle.book_read.specs.declared.error.BookError.TheVariants.{Memory};

use book_lines::{BookWord, LineFault};
use life_cells::NoMemory;
use std::alloc::AllocFailed;
use thiserror::Error;

/// Why a book is not read. Lines count from 1.
#[derive(Clone, Copy, Debug, PartialEq, Eq, Error)]
pub enum BookError {
    /// A line has another form.
    #[error("bad line {line}")]
    BadLine {
        /// The line.
        line: u64,
        /// What is wrong in it.
        why: LineFault,
    },
    /// A word or a name comes again.
    #[error("line {line} comes again")]
    Doubled {
        /// The line with which it comes again.
        line: u64,
    },
    /// A line names a kind that no earlier line defines.
    #[error("unknown kind in line {line}")]
    UnknownKind {
        /// The line that names it.
        line: u64,
    },
    /// A number or a count passes its limit.
    #[error("limit passed in line {line} by {number}")]
    LimitOver {
        /// The line with which it does.
        line: u64,
        /// The number or the count.
        number: i64,
    },
    /// A word that every book has is missing.
    #[error("a setting is missing")]
    Missing {
        /// The first such word.
        word: BookWord,
    },
    /// The reach is too near the wall: less than 9 past it.
    #[error("reach {reach} is too near the wall {wall}")]
    WallReach {
        /// The wall: the greatest u of a kind.
        wall: i64,
        /// The reach: the greatest u of a turn's reaction.
        reach: i64,
    },
    /// No memory.
    #[error("no memory")]
    Memory,
}

impl From<NoMemory> for BookError {
    ghost from_gives = { λ _ e. e ≡ Memory };

    fn from(_: NoMemory) -> Self {
        BookError::Memory
    }
}

impl<T: Drop> From<AllocFailed<T>> for BookError {
    ghost from_gives = { λ _ e. e ≡ Memory };

    fn from(_: AllocFailed<T>) -> Self {
        BookError::Memory
    }
}
