//! Salvos at the hand.

use crate::name::Name;
use crate::numbers::Numbers;
use life_cells::{Cell, CellSet};

/// A salvo, as a book states it.
#[derive(Debug, Drop, PartialEq, Eq)]
pub struct RawSalvo {
    /// Its name.
    pub name: Name,
    /// The lanes of its gliders, in order.
    pub lanes: Numbers,
    /// What it builds; no cell where it builds nothing.
    pub product: CellSet,
    /// Where it leaves the hand, if it leaves one.
    pub hand: Option<Cell>,
}
