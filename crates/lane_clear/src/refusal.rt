//! Why a hit isn't clear.

use life_cells::Cell;

/// The first part of clearance that fails.
#[derive(Clone, Copy, Debug, PartialEq, Eq)]
pub enum ClearRefusal {
    /// The hit's bounds aren't beyond the reach.
    Works {
        /// The least u of the bounds: left less bottom.
        u: i64,
    },
    /// Something built is within distance 2 of the bounds.
    NearBox {
        /// The first such cell.
        cell: Cell,
    },
    /// Something built is on the glider's lane, and not ahead of where the hit begins.
    InLane {
        /// The first such cell.
        cell: Cell,
    },
}
