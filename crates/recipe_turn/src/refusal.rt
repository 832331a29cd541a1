//! Why kinds and turns are refused.

ghost use Rattle.std.specs.Prelude.{◌≡◌};
ghost use Rattle.recipe_turn.specs.declared.refusal.KindsError.TheVariants as kinds;
ghost use Rattle.recipe_turn.specs.declared.refusal.TurnRefusal.TheVariants as turns;

use life_cells::{Cell, NoMemory};

/// Why a list of kinds is refused. Kinds count from 1.
#[derive(Clone, Copy, Debug, PartialEq, Eq)]
pub enum KindsError {
    /// A kind's first cell that is out of place.
    Place {
        /// The kind's number.
        kind: usize,
        /// The cell, at shift 0.
        cell: Cell,
    },
    /// A kind's first cell that changes in the next generation.
    NotStill {
        /// The kind's number.
        kind: usize,
        /// The cell, at shift 0.
        cell: Cell,
    },
    /// No memory.
    Memory,
}

impl From<NoMemory> for KindsError {
    ghost from_gives = { λ _ e. e ≡ kinds.Memory };

    fn from(_: NoMemory) -> Self {
        KindsError::Memory
    }
}

/// Why a turn is refused.
#[derive(Clone, Copy, Debug, PartialEq, Eq)]
pub enum TurnRefusal {
    /// The first delay isn't 0, or a later one isn't at least 20 more than the one before it.
    Gap {
        /// The place of the first such delay, counted from 1.
        place: usize,
    },
    /// The turn is less than 20 generations longer than its last delay.
    Short {
        /// The turn's generations.
        n: u32,
    },
    /// The turn doesn't end as it states.
    EndDiffers {
        /// The first cell in just one of what is left and what is stated.
        cell: Cell,
    },
    /// A cell passes the reach.
    Reach {
        /// The first generation with such a cell.
        generation: u32,
        /// The first such cell in it.
        cell: Cell,
    },
    /// A cell comes before the turn's frame and isn't of the turn's own gliders.
    Tail {
        /// The first generation with such a cell.
        generation: u32,
        /// The first such cell in it.
        cell: Cell,
    },
    /// What is thrown is not yet 5 past the wall.
    Wall {
        /// The least u = x - y of the thrown glider.
        u: i64,
    },
    /// No memory.
    Memory,
}

impl From<NoMemory> for TurnRefusal {
    ghost from_gives = { λ _ e. e ≡ turns.Memory };

    fn from(_: NoMemory) -> Self {
        TurnRefusal::Memory
    }
}
