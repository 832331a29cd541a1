//! Why a set of cells is no target.

ghost use Rattle.std.specs.Prelude.{◌≡◌};
ghost use Rattle.life_target.specs.declared.refusal.TargetError.TheVariants.{Memory};

use life_cells::{Cell, NoMemory};

/// Why a set of cells is no target.
#[derive(Clone, Copy, Debug, PartialEq, Eq)]
pub enum TargetError {
    /// It is more than 2,048 cells wide or high.
    TooWide {
        /// The greater of its width and its height.
        side: u64,
    },
    /// It changes.
    NotStill {
        /// The first cell that does.
        cell: Cell,
    },
    /// It has more than 4,096 islands.
    TooManyIslands {
        /// Their number.
        count: u64,
    },
    /// No memory.
    Memory,
}

impl From<NoMemory> for TargetError {
    ghost from_gives = { λ _ e. e ≡ Memory };

    fn from(_: NoMemory) -> Self {
        TargetError::Memory
    }
}
