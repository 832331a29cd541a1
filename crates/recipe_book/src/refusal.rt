//! Why a book is refused.

ghost use Rattle.std.specs.Prelude.{◌≡◌};
ghost use Rattle.recipe_book.specs.declared.refusal.BookRefusal.TheVariants.{Memory};

use life_cells::{Cell, NoMemory};

/// Why a book is refused. Kinds count from 1.
#[derive(Clone, Copy, Debug, PartialEq, Eq)]
pub enum BookRefusal {
    /// A kind's first cell that is out of place.
    KindPlace {
        /// The kind's number.
        kind: usize,
        /// The cell, at shift 0.
        cell: Cell,
    },
    /// A kind's first cell that changes.
    KindNotStill {
        /// The kind's number.
        kind: usize,
        /// The cell, at shift 0.
        cell: Cell,
    },
    /// The hand's first cell that changes.
    HandNotStill {
        /// The cell, at place (0,0).
        cell: Cell,
    },
    /// The elbow has more states, of kind and shift, than a book may have.
    ElbowMany {
        /// The limit and one more.
        count: u64,
    },
    /// No memory.
    Memory,
}

impl From<NoMemory> for BookRefusal {
    ghost from_gives = { λ _ e. e ≡ Memory };

    fn from(_: NoMemory) -> Self {
        BookRefusal::Memory
    }
}
