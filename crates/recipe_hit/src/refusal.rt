//! Why there is no hit, why a set is no hand, and why a salvo isn't sound.

ghost use Rattle.std.specs.Prelude.{◌≡◌};
ghost use Rattle.recipe_hit.specs.declared.refusal.HandRefusal.TheVariants as hand;
ghost use Rattle.recipe_hit.specs.declared.refusal.HitRefusal.TheVariants as hit;
ghost use Rattle.recipe_hit.specs.declared.refusal.SalvoRefusal.TheVariants as salvo;

use life_cells::{Cell, NoMemory};
use std::alloc::AllocFailed;

/// Why there is no hit.
#[derive(Clone, Copy, Debug, PartialEq, Eq)]
pub enum HitRefusal {
    /// Nothing lives that can be struck.
    Empty,
    /// Nothing comes to rest near what was struck.
    NotSettled {
        /// The greatest number of generations.
        after: u32,
    },
    /// No memory.
    Memory,
}

impl From<NoMemory> for HitRefusal {
    ghost from_gives = { λ _ e. e ≡ hit.Memory };

    fn from(_: NoMemory) -> Self {
        HitRefusal::Memory
    }
}

/// Why a set is no hand.
#[derive(Clone, Copy, Debug, PartialEq, Eq)]
pub enum HandRefusal {
    /// It changes.
    NotStill {
        /// The first cell that does.
        cell: Cell,
    },
    /// No memory.
    Memory,
}

impl From<NoMemory> for HandRefusal {
    ghost from_gives = { λ _ e. e ≡ hand.Memory };

    fn from(_: NoMemory) -> Self {
        HandRefusal::Memory
    }
}

/// Why a salvo isn't sound. Places of lanes count from 1.
#[derive(Clone, Copy, Debug, PartialEq, Eq)]
pub enum SalvoRefusal {
    /// The lanes before have left nothing to strike.
    Empty {
        /// The lane's place.
        place: usize,
    },
    /// A hit doesn't come to rest near what it struck.
    NotSettled {
        /// The lane's place.
        place: usize,
    },
    /// Other cells are left than the product and the hand.
    EndDiffers {
        /// The first cell in just one of the two.
        cell: Cell,
    },
    /// The product is more than one island.
    ProductSplit,
    /// The product is too near to the hand.
    HandNear {
        /// Its first cell within distance 2 of the hand.
        cell: Cell,
    },
    /// No memory.
    Memory,
}

impl From<NoMemory> for SalvoRefusal {
    ghost from_gives = { λ _ e. e ≡ salvo.Memory };

    fn from(_: NoMemory) -> Self {
        SalvoRefusal::Memory
    }
}

impl<T: Drop> From<AllocFailed<T>> for SalvoRefusal {
    ghost from_gives = { λ _ e. e ≡ salvo.Memory };

    fn from(_: AllocFailed<T>) -> Self {
        SalvoRefusal::Memory
    }
}
