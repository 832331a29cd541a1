//! The texts of items, in lines.

ghost use Rattle.std.specs.Prelude.{◌≡◌, ◌++◌, ◌∷◌, ℕ, List, OnOk, IfOk};
ghost use Rattle.std.specs.String.{string_bytes};
ghost use Rattle.life_rle.specs.Written.{folded, pieces};

use life_cells::NoMemory;
use rle_items::item::Item;
use std::alloc::Global;

/// The greatest length of a line of items.
const LINE: usize = 70;

/// Appends a piece, in a new line where it would pass the end of this one. The answer is the column behind it.
fn push_piece(text: &mut String, column: usize, piece: &str) -> Result<usize, NoMemory>
    ensures { IfOk result (λ after. (rest : List (List ℕ)) → (string_bytes text.old ++ folded column (piece.now ∷ rest)) ≡ (string_bytes text.new ++ folded after rest)) }
{
    if column.saturating_add(piece.len()) <= LINE {
        text.push_str(piece)?;
        return Ok(column + piece.len());
    }
    text.push('\n')?;
    text.push_str(piece)?;
    Ok(piece.len())
}

/// Appends items and `!` in lines of at most 70 characters.
pub fn push_items(alloc: Global, items: &[Item], text: &mut String) -> Result<(), NoMemory>
    ensures { OnOk result (string_bytes text.new ≡ string_bytes text.old ++ folded 0 (pieces items.now)) }
{
    let mut piece = String::new(alloc);
    let mut column = 0;
    for item in items {
        piece.clear();
        write!(piece, "{item}")?;
        column = push_piece(text, column, piece.as_str())?;
    }
    push_piece(text, column, "!")?;
    Ok(())
}
