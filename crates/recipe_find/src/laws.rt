//! Laws of books that are extended. No code runs.

ghost use Rattle.std.specs.Prelude.{◌≡◌, ℕ};
ghost use Rattle.std.specs.List.{AllByRecursion};
ghost use Rattle.book_parts.specs.Said.{Said};
ghost use Rattle.book_parts.specs.Proper.{IsProperKind};
ghost use Rattle.recipe_turn.specs.Checked.{AreValid};
ghost use Rattle.recipe_find.specs.Extended.{IsExtended};
ghost use Rattle.recipe_find.specs.Refusals.{HasRoom, FindingIsRefused};
ghost use Rattle.recipe_find.specs.declared.error.FindError.{FindError};

use crate::error::FindError;
use find_salvo::laws::lanes_have_one_outcome;
use find_turn::laws::one_turn_is_the_least;

/// A book and what its first candidates add are one book.
pub fn extended_books_are_one()
    ensures { (book a b : Said) (budget : ℕ) → AllByRecursion IsProperKind book.kinds → AreValid book.settings book.kinds → IsExtended book budget a → IsExtended book budget b → a ≡ b }
{
    // These say that lanes have one outcome at most, and that one turn at most is the least; they do nothing.
    lanes_have_one_outcome();
    one_turn_is_the_least();
}

/// Where there is room for the whole the finder doesn't refuse, but for want of memory.
pub fn books_with_room_are_not_refused()
    ensures { (book whole : Said) (budget : ℕ) (e : FindError) → AllByRecursion IsProperKind book.kinds → AreValid book.settings book.kinds → IsExtended book budget whole → HasRoom whole →
        FindingIsRefused book budget e → e ≡ FindError.Memory }
{
    // This says that the whole is one; it does nothing.
    extended_books_are_one();
}
