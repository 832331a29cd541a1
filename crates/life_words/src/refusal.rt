//! The refusals of words. Places count from 1.

ghost use Rattle.std.specs.Prelude.{◌≡◌};
ghost use Rattle.life_words.specs.declared.refusal.WordsError.TheVariants.{Memory};

use std::alloc::{AllocError, AllocFailed};
use thiserror::Error;

/// Why words give no command.
#[derive(Clone, Copy, Debug, PartialEq, Eq, Error)]
pub enum WordsError {
    /// There are no words.
    #[error("no command")]
    NoCommand,
    /// A word begins with `-`.
    #[error("word {place} begins with a dash")]
    Dash {
        /// The word's place.
        place: usize,
    },
    /// The first word is no command.
    #[error("unknown command")]
    UnknownCommand,
    /// The command takes another number of words.
    #[error("wrong number of words")]
    WrongCount,
    /// A word isn't a number within its limits.
    #[error("word {place} is no number within its limits")]
    BadNumber {
        /// The word's place.
        place: usize,
    },
    /// No memory.
    #[error("no memory")]
    Memory,
}

impl From<AllocError> for WordsError {
    ghost from_gives = { λ _ e. e ≡ Memory };

    fn from(_: AllocError) -> Self {
        WordsError::Memory
    }
}

impl<T: Drop> From<AllocFailed<T>> for WordsError {
    ghost from_gives = { λ _ e. e ≡ Memory };

    fn from(_: AllocFailed<T>) -> Self {
        WordsError::Memory
    }
}
