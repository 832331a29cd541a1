//! What a text is read as.

use life_cells::CellSet;

/// A pattern: its live cells.
#[derive(Debug, Drop)]
pub struct Pattern {
    /// The live cells, in the text's own coordinates.
    pub cells: CellSet,
}
