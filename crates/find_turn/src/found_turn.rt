//! What is found for a list of delays at a kind.

use book_parts::TurnEnd;

/// The most generations after its last delay that a turn is looked for.
pub const LONGEST_WAIT: i64 = 4_096;

/// The least number of generations at which a turn is sound, and its end.
#[derive(Clone, Copy, Debug, PartialEq, Eq)]
pub struct FoundTurn {
    /// How many generations the turn takes.
    pub n: u32,
    /// What it leaves.
    pub end: TurnEnd,
}
