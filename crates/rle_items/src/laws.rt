//! Laws of what is read: a body word has one answer, want of memory aside. So each refusal comes exactly where its
//! definition says.

ghost use Rattle.std.specs.Prelude.{◌≡◌, ◌≢◌, ℕ, List};
ghost use Rattle.life_plane.specs.Plane.{Plane};
ghost use Rattle.rle_items.specs.declared.error.BodyError.{BodyError};
ghost use Rattle.rle_items.specs.Words.{WordMeans};
ghost use Rattle.rle_items.specs.Faults.{IsFineWord, StopsWith};
ghost use Rattle.rle_items.specs.ItemFaults.{IsForLimit};

use crate::error::BodyError;

/// A body word has one refusal.
pub fn words_have_one_refusal()
    ensures { (word : List ℕ) (e f : BodyError) → StopsWith word e → StopsWith word f → e ≢ BodyError.Memory → f ≢ BodyError.Memory → e ≡ f }
{}

/// A body word of items within the limits, with `!` at its end, has none.
pub fn fine_words_have_no_refusal()
    ensures { (word : List ℕ) (e : BodyError) → IsFineWord word → StopsWith word e → e ≢ BodyError.Memory → ⊥ }
{}

/// A body word that means live cells is refused only for a limit.
pub fn meant_words_are_refused_for_limits()
    ensures { (word : List ℕ) (s : Plane) (e : BodyError) → WordMeans word s → StopsWith word e → IsForLimit e }
{}

/// A body word means one set of live cells.
pub fn words_mean_one_plane()
    ensures { (word : List ℕ) (s t : Plane) → WordMeans word s → WordMeans word t → s ≡ t }
{}
