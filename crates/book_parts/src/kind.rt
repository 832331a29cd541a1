//! Kinds of elbow.

use crate::name::Name;
use life_cells::CellSet;

/// A kind of elbow, as a book states it.
#[derive(Debug, Drop, PartialEq, Eq)]
pub struct RawKind {
    /// Its name.
    pub name: Name,
    /// Its cells, at shift 0.
    pub cells: CellSet,
}
