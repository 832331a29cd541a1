//! Names of what is found.

ghost use Rattle.std.specs.Prelude.{◌≡◌, ◌↔◌, ℕ, List, IfOk, IsTrue, MatchOption, map};
ghost use Rattle.book_parts.specs.Limits.{IsName};
ghost use Rattle.book_parts.specs.Proper.{IsNoneOf, entry_names};
ghost use Rattle.book_parts.specs.declared.salvo.RawSalvo.{RawSalvo};
ghost use Rattle.book_parts.specs.declared.turn.RawTurn.{RawTurn};
ghost use Rattle.recipe_turn.specs.Checked.{raws};
ghost use Rattle.recipe_book.specs.Checked.{raw_salvos, said_of};
ghost use Rattle.recipe_find.specs.Names.{IsNewName};

use book_parts::Name;
use book_parts::limits::LONGEST_NAME;
use life_cells::NoMemory;
use recipe_book::CheckedBook;
use recipe_hit::CheckedSalvo;
use recipe_turn::CheckedTurn;
use std::alloc::Global;

/// Whether none of these turns has this name.
fn is_new_to_turns(turns: &[CheckedTurn], name: &str) -> bool
    ensures { IsTrue result ↔ IsNoneOf (map (λ (turn : RawTurn). turn.name) (raws turns.now)) name.now }
{
    for turn in turns {
        if turn.raw().name.text() == name {
            return false;
        }
    }
    true
}

/// Whether none of these salvos has this name.
fn is_new_to_salvos(salvos: &[CheckedSalvo], name: &str) -> bool
    ensures { IsTrue result ↔ IsNoneOf (map (λ (salvo : RawSalvo). salvo.name) (raw_salvos salvos.now)) name.now }
{
    for salvo in salvos {
        if salvo.raw().name.text() == name {
            return false;
        }
    }
    true
}

/// Whether no turn and no salvo of the book has this name.
fn is_new(book: &CheckedBook, name: &str) -> bool
    ensures { IsTrue result ↔ IsNoneOf (entry_names (said_of book.now)) name.now }
{
    is_new_to_turns(book.turns(), name) && is_new_to_salvos(book.salvos(), name)
}

/// The name of what the candidate with this number adds to the book; None where that name is longer than a name may be.
pub(crate) fn new_name(
    alloc: Global,
    book: &CheckedBook,
    number: u32,
) -> Result<Option<Name>, NoMemory>
    ensures { IfOk result (λ found. MatchOption found ((name : List ℕ) → IsNewName (entry_names (said_of book.now)) number name → IsName name → ⊥)
        (λ name. IsNewName (entry_names (said_of book.now)) number name × IsName name)) }
{
    let mut text = format!(in alloc; "found{number}")?;
    'longer: while text.len() <= LONGEST_NAME {
        if is_new(book, text.as_str()) {
            let name = Name::from_text(alloc, text.as_str())?;
            return Ok(Some(name));
        }
        text.push('x')?;
    }
    Ok(None)
}
