//! What a hit is looked up by.

use life_cells::CellSet;

/// A glider of a lane, and what it is to strike.
#[derive(Debug, Drop, PartialEq, Eq, Hash)]
pub struct Strike {
    /// What is left, which it strikes.
    pub left: CellSet,
    /// The lane of the glider.
    pub lane: i64,
}
