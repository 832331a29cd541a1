//! Why there is no plan.

ghost use Rattle.std.specs.Prelude.{◌≡◌};
ghost use Rattle.build_plan.specs.declared.error.PlanError.TheVariants.{Memory};

use life_cells::{Cell, NoMemory};

/// Where planning stops.
#[derive(Clone, Copy, Debug, PartialEq, Eq)]
pub enum PlanError {
    /// No salvo is usable for an island.
    NoRecipe {
        /// The island's number in the order of all islands, counted from 1.
        island: usize,
        /// Its first cell, in the target's own coordinates.
        at: Cell,
    },
    /// All islands are built, and no list of turns closes the elbow.
    NoClosing {
        /// The number of the elbow's kind, counted from 1.
        kind: usize,
        /// The elbow's shift.
        shift: i64,
    },
    /// The stream has more than 2^20 gliders.
    StreamLong {
        /// How many it has by then.
        count: u64,
    },
    /// No memory.
    Memory,
}

impl From<NoMemory> for PlanError {
    ghost from_gives = { λ _ e. e ≡ Memory };

    fn from(_: NoMemory) -> Self {
        PlanError::Memory
    }
}
