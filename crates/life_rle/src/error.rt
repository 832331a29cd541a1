//! The refusals of a text. Bytes count from 0 and lines from 1.

ghost use Rattle.std.specs.Prelude.{◌≡◌};
ghost use Rattle.life_rle.specs.declared.error.RleError.TheVariants as text;

use life_cells::NoMemory;
use rle_items::BodyError;
use thiserror::Error;

/// Why a text is not read.
#[derive(Clone, Copy, Debug, PartialEq, Eq, Error)]
pub enum RleError {
    /// Each line is a comment or blank.
    #[error("no header")]
    NoHeader,
    /// The header's line has another form.
    #[error("bad header in line {line}")]
    BadHeader { line: u64 },
    /// The header names another rule than Conway's.
    #[error("unknown rule in line {line}")]
    BadRule { line: u64 },
    /// A byte is no part of an item, or begins a count that follows another.
    #[error("bad item at byte {at}")]
    BadItem { at: u64 },
    /// A count is zero, too long, or stands before the end.
    #[error("bad count at byte {at}")]
    BadCount { at: u64 },
    /// The text ends before a `!`.
    #[error("no end")]
    NoEnd,
    /// A coordinate passes 2^40.
    #[error("too far at byte {at}")]
    TooFar { at: u64 },
    /// More than 2^18 live cells.
    #[error("{count} live cells")]
    TooMany { count: u64 },
    /// No memory.
    #[error("no memory")]
    Memory,
}

impl From<NoMemory> for RleError {
    ghost from_gives = { λ _ e. e ≡ text.Memory };

    fn from(_: NoMemory) -> Self {
        RleError::Memory
    }
}

/// What stops the reading of the items is told so.
impl From<BodyError> for RleError {
    ghost use Rattle.life_rle.specs.TextFaults.{of_items};

    ghost from_gives = { λ b e. e ≡ of_items b };

    fn from(fault: BodyError) -> Self {
        match fault {
            BodyError::BadItem { at } => RleError::BadItem { at },
            BodyError::BadCount { at } => RleError::BadCount { at },
            BodyError::NoEnd => RleError::NoEnd,
            BodyError::TooFar { at } => RleError::TooFar { at },
            BodyError::TooMany { count } => RleError::TooMany { count },
            BodyError::Memory => RleError::Memory,
        }
    }
}
