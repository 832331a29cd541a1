//! Laws of the elbow's states: they have one number, and it is within a limit or it is not.

ghost use Rattle.std.specs.Prelude.{◌≡◌, ℕ, ℤ, List};
ghost use Rattle.book_parts.specs.declared.turn.RawTurn.{RawTurn};
ghost use Rattle.elbow_graph.specs.States.{HasStates, HasMoreStates};

/// Elbow states have one number.
pub fn states_have_one_number()
    ensures { (turns : List RawTurn) (start : ℕ) (span : ℤ) (limit other a b : ℕ) → HasStates turns start span limit a → HasStates turns start span other b → a ≡ b }
{}

/// Where their number is within a limit, they are not more than it.
pub fn states_within_are_not_more()
    ensures { (turns : List RawTurn) (start : ℕ) (span : ℤ) (limit n : ℕ) → HasStates turns start span limit n → HasMoreStates turns start span limit → ⊥ }
{}
