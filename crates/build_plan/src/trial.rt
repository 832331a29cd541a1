//! Salvos that are usable.

use crate::walk::Walk;
use life_cells::Cell;

/// How a usable salvo is used.
#[derive(Drop)]
pub(crate) struct Trial {
    /// Where the hand stands as the salvo begins.
    pub(crate) at: Cell,
    /// Where the salvo leaves the hand, if it leaves one.
    pub(crate) hand: Option<Cell>,
    /// The farewell of the hand that the last salvo leaves.
    pub(crate) farewell: Option<Walk>,
}
