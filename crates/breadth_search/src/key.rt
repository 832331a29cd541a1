//! Values that are looked up.

ghost use Rattle.std.specs.Prelude.{◌≡◌, true};
ghost use Rattle.std.proofs.lemmas.Bool.{eqb-true};
ghost use Rattle.breadth_search.specs.KeyLaws.{same_cell};

use life_cells::Cell;
use std::hash::Hash;

/// A value that is copied, compared and hashed: a state of a search, or what a table is asked for. Keys that compare as equal are the same.
pub trait Key: Copy + Eq + Hash {
    // Keys that compare as equal are the same.
    ghost same: { (a b : Self) → Self.eq a b ≡ true → a ≡ b };
}

impl Key for usize {
    ghost same = { eqb-true };
}

impl Key for Cell {
    ghost same = { same_cell };
}
