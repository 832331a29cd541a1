//! Laws of what is read: a text has one answer, want of memory aside. So each refusal comes exactly where its definition
//! says, and a pattern exactly where the text has a reading within the limits.

ghost use Rattle.std.specs.Prelude.{◌≡◌, ◌≢◌, ℕ, List};
ghost use Rattle.life_plane.specs.Plane.{Plane};
ghost use Rattle.life_cells.specs.declared.cell.Cell.{Cell};
ghost use Rattle.rle_items.specs.declared.item.Item.{Item};
ghost use Rattle.life_rle.specs.declared.error.RleError.{RleError};
ghost use Rattle.life_rle.specs.Text.{Says, Means};
ghost use Rattle.life_rle.specs.TextFaults.{IsFineText, IsForLimit, TextStopsWith};

use crate::error::RleError;

/// A text has one refusal.
pub fn texts_have_one_refusal()
    ensures { (text : List ℕ) (e f : RleError) → TextStopsWith text e → TextStopsWith text f → e ≢ RleError.Memory → f ≢ RleError.Memory → e ≡ f }
{}

/// A text with a reading within the limits has none.
pub fn fine_texts_have_no_refusal()
    ensures { (text : List ℕ) (e : RleError) → IsFineText text → TextStopsWith text e → e ≢ RleError.Memory → ⊥ }
{}

/// A text with a reading is refused only for a limit.
pub fn said_texts_are_refused_for_limits()
    ensures { (text : List ℕ) (place : Cell) (items : List Item) (e : RleError) → Says text place items → TextStopsWith text e → IsForLimit e }
{}

/// A text says one place and one list of items, wherever it has comments, white space and blanks.
pub fn texts_say_one_list()
    ensures { (text : List ℕ) (place other : Cell) (items others : List Item) → Says text place items → Says text other others → (place ≡ other) × (items ≡ others) }
{}

/// So it means one set of live cells.
pub fn texts_mean_one_plane()
    ensures { (text : List ℕ) (s t : Plane) → Means text s → Means text t → s ≡ t }
{}
