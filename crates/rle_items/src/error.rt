//! The refusals of a body: of a body word, and of the items of a text. Bytes count from 0.

ghost use Rattle.std.specs.Prelude.{◌≡◌};
ghost use Rattle.rle_items.specs.declared.error.BodyError.TheVariants as body;

use life_cells::NoMemory;
use thiserror::Error;

/// Why a body is not read.
#[derive(Clone, Copy, Debug, PartialEq, Eq, Error)]
pub enum BodyError {
    /// A byte is no part of an item, or begins a count that follows another; in a body word, too, where it follows the `!`.
    #[error("bad item at byte {at}")]
    BadItem { at: u64 },
    /// A count is zero, too long, or stands before the `!`.
    #[error("bad count at byte {at}")]
    BadCount { at: u64 },
    /// The body ends before a `!`.
    #[error("no end")]
    NoEnd,
    /// A coordinate passes 2^40.
    #[error("too far at byte {at}")]
    TooFar { at: u64 },
    /// More than 2^18 live cells.
    #[error("{count} live cells")]
    TooMany { count: u64 },
    /// No memory.
    #[error("no memory")]
    Memory,
}

impl From<NoMemory> for BodyError {
    ghost from_gives = { λ _ e. e ≡ body.Memory };

    fn from(_: NoMemory) -> Self {
        BodyError::Memory
    }
}
