//! Laws of what is written: a set has one canonical text with a note, and one body word; the text can be read again.

ghost use Rattle.std.specs.Prelude.{◌≡◌, ℕ, ◌≤◌, ◌^◌, List, Option, length};
ghost use Rattle.life_plane.specs.Plane.{Plane};
ghost use Rattle.life_cells.specs.Cells.{Cells, alive, in_order};
ghost use Rattle.life_cells.specs.Boxes.{IsInRange};
ghost use Rattle.life_rle.specs.Written.{IsRleText, IsBodyText, HasNoLineBreak};
ghost use Rattle.life_rle.specs.TextFaults.{IsFineText};

/// A set has one text with a note, or without.
pub fn sets_have_one_text()
    ensures { (s : Plane) (note : Option (List ℕ)) (text other : List ℕ) → IsRleText s note text → IsRleText s note other → text ≡ other }
{}

/// A set has one body word.
pub fn sets_have_one_word()
    ensures { (s : Plane) (word other : List ℕ) → IsBodyText s word → IsBodyText s other → word ≡ other }
{}

/// The text of at most 2^18 live cells with coordinates from -2^39 to 2^39 is of the form that is read, within the limits.
pub fn written_texts_are_fine()
    ensures { (cells : Cells) (note : Option (List ℕ)) (text : List ℕ) → IsRleText (alive cells) note text → HasNoLineBreak note → IsInRange (2 ^ 39) (alive cells) → length (in_order cells) ≤ 2 ^ 18 → IsFineText text }
{}
