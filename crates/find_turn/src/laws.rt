//! Laws of the turn that is found. No code runs.

ghost use Rattle.std.specs.Prelude.{◌≡◌, ℕ, ℤ, List};
ghost use Rattle.std.specs.List.{AllByRecursion};
ghost use Rattle.book_parts.specs.Proper.{IsProperKind};
ghost use Rattle.book_parts.specs.declared.kind.RawKind.{RawKind};
ghost use Rattle.book_parts.specs.declared.settings.Settings.{Settings};
ghost use Rattle.recipe_turn.specs.Checked.{AreValid};
ghost use Rattle.find_turn.specs.Found.{IsLeastTurn};

use crate::found_turn::FoundTurn;

/// For a kind and delays one turn at most is the least, so one end at most is the first.
pub fn one_turn_is_the_least()
    ensures { (settings : Settings) (kinds : List RawKind) (kind : ℕ) (delays : List ℤ) (a b : FoundTurn) → AllByRecursion IsProperKind kinds → AreValid settings kinds →
        IsLeastTurn settings kinds kind delays a → IsLeastTurn settings kinds kind delays b → a ≡ b }
{}
