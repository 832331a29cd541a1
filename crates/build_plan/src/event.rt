//! Plans, and what they are made of.

use life_cells::Cell;

/// One event of a plan.
#[derive(Clone, Copy, Debug, PartialEq, Eq)]
pub enum Event {
    /// A turn at the elbow.
    Turn {
        /// The turn's number among the book's accepted turns, counted from 1.
        turn: usize,
        /// The elbow's shift before it.
        shift: i64,
    },
    /// A hit at the hand, of the glider thrown last.
    Hit {
        /// The salvo's number among the book's accepted salvos, counted from 1.
        salvo: usize,
        /// The hit's place among the hits of its salvo, counted from 1.
        place: usize,
        /// Where the hand stands as the salvo begins.
        at: Cell,
    },
}

/// How a book builds a target.
#[derive(Debug, Drop)]
pub struct Plan {
    /// Turns and hits, in their order.
    pub events: Vec<Event>,
    /// Where the first hand stands, if there is one.
    pub first_hand: Option<Cell>,
    /// The shift back to the target's own place.
    pub back: Cell,
}
