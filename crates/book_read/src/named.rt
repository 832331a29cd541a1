//! Names among the entries of a book.

ghost use Rattle.std.specs.Prelude.{◌≡◌, ◌↔◌, ℕ, List, IsTrue, map};
ghost use Rattle.book_parts.specs.Proper.{IsNoneOf};

use book_parts::{Name, RawKind, RawSalvo, RawTurn};

/// An entry of a book.
pub trait Named {
    ghost name_of: { Self → List ℕ };

    /// Its name.
    fn name(&self) -> &Name
        ensures { result.now ≡ name_of self.now };
}

impl Named for RawKind {
    ghost name_of = { λ kind. kind.name };

    fn name(&self) -> &Name {
        &self.name
    }
}

impl Named for RawTurn {
    ghost name_of = { λ turn. turn.name };

    fn name(&self) -> &Name {
        &self.name
    }
}

impl Named for RawSalvo {
    ghost name_of = { λ salvo. salvo.name };

    fn name(&self) -> &Name {
        &self.name
    }
}

/// Whether none of these entries has this name.
pub fn is_new_name<T: Named>(entries: &[T], name: &str) -> bool
    ensures { IsTrue result ↔ IsNoneOf (map T.name_of entries.now) name.now }
{
    for entry in entries {
        if entry.name().text() == name {
            return false;
        }
    }
    true
}
