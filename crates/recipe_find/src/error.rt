//! Why the finder gives no book.

ghost use Rattle.std.specs.Prelude.{◌≡◌};
ghost use Rattle.recipe_find.specs.declared.error.FindError.TheVariants.{Memory};

use life_cells::NoMemory;
use thiserror::Error;

/// Of what a book has more than it may have.
#[derive(Clone, Copy, Debug, PartialEq, Eq)]
pub enum Full {
    /// Salvos, of which it may have 4,096.
    Salvos,
    /// Turns, of which it may have 1,024.
    Turns,
    /// Live cells of all bodies, of which it may have 262,144.
    Cells,
}

/// Why the finder gives no book.
#[derive(Clone, Copy, Debug, PartialEq, Eq, Error)]
pub enum FindError {
    /// The book and what was found are more than a book may have.
    #[error("the book is full: {count}")]
    BookFull {
        /// The first of which there are too many, in the order salvos, turns, cells.
        what: Full,
        /// How many there are.
        count: u64,
    },
    /// No memory.
    #[error("no memory")]
    Memory,
}

impl From<NoMemory> for FindError {
    ghost from_gives = { λ _ e. e ≡ Memory };

    fn from(_: NoMemory) -> Self {
        FindError::Memory
    }
}
