//! The laws of rows and words.

ghost use Rattle.std.specs.Prelude.{◌≡◌, true, false};
ghost use Rattle.life_plane.specs.Plane.{step};
ghost use Rattle.life_kernel.specs.Rows.{next_cell};
ghost use Rattle.life_kernel.specs.Words.{Words, plane_of_words, AreNextWords};

/// The plane of the next words is the next generation of the plane of the words.
pub fn words_step_as_planes()
    ensures { (words next : Words) → AreNextWords words next → plane_of_words next ≡ step (plane_of_words words) }
{}

/// Known strips: three cells in a row give birth beside them, in the row itself, below it and across either end; seven neighbours are
/// not three.
pub fn known_strips()
    ensures line { next_cell 0 0b1110 0 0 0 2 ≡ true }
    ensures above { next_cell 0b1110 0 0 0 0 2 ≡ true }
    ensures west { next_cell 0 0 0 0b111 0 0 ≡ true }
    ensures east { next_cell 0 0 0 0 0b111 63 ≡ true }
    ensures seven { next_cell 0b111 0b101 0b110 0 0 1 ≡ false }
{}
