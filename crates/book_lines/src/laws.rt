//! Laws of what a line states: one thing at most, and no fault with it, or else one fault. So an answer comes exactly where its definition
//! says.

ghost use Rattle.std.specs.Prelude.{◌≡◌, ℕ, List};
ghost use Rattle.book_lines.specs.declared.statement.Statement.{Statement};
ghost use Rattle.book_lines.specs.declared.fault.LineFault.{LineFault};
ghost use Rattle.book_lines.specs.Statements.{States};
ghost use Rattle.book_lines.specs.Faults.{IsLineFault};

use rle_items::laws::{fine_words_have_no_refusal, words_have_one_refusal, words_mean_one_plane};

/// A line states one thing at most.
pub fn lines_state_one_thing()
    ensures { (line : List ℕ) (s t : Statement) → States line s → States line t → s ≡ t }
{
    words_mean_one_plane();
    words_have_one_refusal();
    fine_words_have_no_refusal();
}

/// A line has one fault at most.
pub fn lines_have_one_fault()
    ensures { (line : List ℕ) (v w : LineFault) → IsLineFault line v → IsLineFault line w → v ≡ w }
{}

/// A line that states something has no fault.
pub fn stating_lines_have_no_fault()
    ensures { (line : List ℕ) (s : Statement) (why : LineFault) → States line s → IsLineFault line why → ⊥ }
{}
