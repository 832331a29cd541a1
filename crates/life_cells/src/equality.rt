//! Equality and hashing of sets of cells.

ghost use Rattle.life_cells.specs.Same.{same_set, set_hash};
ghost use Rattle.life_cells.specs.SameLaws.{same_set_equiv, set_hash-same};
ghost use Rattle.std.specs.Cmp.{partial_equiv_from_equiv};

use crate::cell_set::CellSet;
use std::hash::{Hash, Hasher};

impl PartialEq for CellSet {
    ghost eq = { same_set };

    ghost laws = { partial_equiv_from_equiv same_set_equiv };

    fn eq(&self, other: &CellSet) -> bool {
        self.cells() == other.cells()
    }
}

impl Eq for CellSet {
    ghost laws = { same_set_equiv };
}

impl Hash for CellSet {
    ghost hash_input = { set_hash };

    ghost respects_eq = { set_hash-same };

    fn hash<H: Hasher>(&self, state: &mut H) {
        self.cells().hash(state);
    }
}
