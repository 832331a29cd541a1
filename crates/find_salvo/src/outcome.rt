//! What gliders leave.

use life_cells::{Cell, CellSet};

/// What gliders leave: what they build, and the hand.
#[derive(Debug, Drop)]
pub struct Outcome {
    /// What is built, where it stands.
    pub product: CellSet,
    /// Where the hand is left, if it is.
    pub hand: Option<Cell>,
}
