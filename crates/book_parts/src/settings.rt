//! What holds for a whole book.

use life_cells::Cell;

/// The settings of a book.
#[derive(Clone, Copy, Debug, PartialEq, Eq)]
pub struct Settings {
    /// How far before a turn's frame its first glider stands, in generations.
    pub approach: i64,
    /// The greatest u of a kind.
    pub wall: i64,
    /// The greatest u of a turn's reaction.
    pub reach: i64,
    /// Where the target's lower left corner is built.
    pub corner: Cell,
    /// The margin of hand places about the target.
    pub room: i64,
    /// The greatest absolute shift of the elbow.
    pub span: i64,
    /// The lanes that the finder tries.
    pub lanes: Range,
    /// The gaps between delays that the finder tries.
    pub delays: Range,
}

/// A range of numbers that the finder makes lists of.
#[derive(Clone, Copy, Debug, PartialEq, Eq)]
pub struct Range {
    /// The least number.
    pub low: i64,
    /// The greatest number.
    pub high: i64,
    /// The length of the longest list.
    pub len: u32,
}
