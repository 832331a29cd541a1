//! What the finder tries.

use book_parts::Numbers;

/// A candidate of the finder.
#[derive(Debug, Drop)]
pub enum Candidate {
    /// A list of lanes, from which a salvo may come.
    Lanes(Numbers),
    /// A kind and a list of delays, from which a turn may come.
    Delays {
        /// The number of the kind that the turn begins at, counted from 1.
        kind: usize,
        /// The delays of its gliders, in generations.
        delays: Numbers,
    },
}
