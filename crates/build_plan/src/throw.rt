//! Gliders that salvos ask for.

use life_cells::Cell;

/// A glider that a salvo asks for, and its hit.
#[derive(Clone, Copy, Debug, PartialEq, Eq)]
pub struct Throw {
    /// The salvo's number, counted from 1.
    pub salvo: usize,
    /// The hit's place among the hits of its salvo, counted from 1.
    pub place: usize,
    /// Where the hand stands as the salvo begins.
    pub at: Cell,
    /// The lane, in the plane's coordinates.
    pub lane: i64,
}
