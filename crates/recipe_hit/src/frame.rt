//! Hits, and where they take place.

use life_cells::{Bounds, CellSet};

/// Where a hit takes place, at the hand's own place.
#[derive(Clone, Copy, Debug, PartialEq, Eq)]
pub struct HitFrame {
    /// The lane of its glider.
    pub lane: i64,
    /// The quarter of its glider's index at which it begins.
    pub start: i64,
    /// The bounds of all its cells.
    pub bounds: Bounds,
}

/// A hit at the hand: a glider has struck, and all has come to rest.
#[derive(Debug, Drop, PartialEq, Eq)]
pub struct Hit {
    /// What is left.
    pub after: CellSet,
    /// How many generations it takes, from the quarter at which it begins.
    pub generations: u32,
    /// Its lane, the quarter of its glider's index at which it begins, and the bounds of all cells on the way.
    pub frame: HitFrame,
}
