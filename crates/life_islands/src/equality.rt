//! Equality and hashing of shapes: they are those of their cells.

ghost use Rattle.life_cells.specs.Same.{same_set, set_hash};
ghost use Rattle.life_cells.specs.SameLaws.{same_set_equiv, set_hash-same};
ghost use Rattle.std.specs.Cmp.{partial_equiv_from_equiv};

use crate::shape::Shape;
use std::hash::{Hash, Hasher};

impl PartialEq for Shape {
    ghost eq = { same_set };

    ghost laws = { partial_equiv_from_equiv same_set_equiv };

    fn eq(&self, other: &Shape) -> bool {
        self.cells() == other.cells()
    }
}

impl Eq for Shape {
    ghost laws = { same_set_equiv };
}

impl Hash for Shape {
    ghost hash_input = { set_hash };

    ghost respects_eq = { set_hash-same };

    fn hash<H: Hasher>(&self, state: &mut H) {
        self.cells().hash(state);
    }
}
