//! Bodies and their places.

ghost use Rattle.std.specs.Prelude.{◌≡◌, ◌++◌, ◌^◌, OnOk};
ghost use Rattle.life_cells.specs.Cells.{alive};
ghost use Rattle.life_cells.specs.Boxes.{IsInRange, IsLeastBox};
ghost use Rattle.rle_items.specs.Words.{IsNotNegative};
ghost use Rattle.book_parts.specs.Limits.{IsPlaced};
ghost use Rattle.book_write.specs.Laid.{spaced, AppendsWords};
ghost use Rattle.book_write.specs.Parts.{place_words, IsBodyWord, IsPlacedText, IsProductText};

use crate::words::{push_number, push_word};
use life_cells::{Bounds, Cell, CellSet, NoMemory};
use life_rle::write_body;
use std::alloc::Global;

/// Appends a space and a body word.
pub fn push_body(alloc: Global, text: &mut Vec<u8>, cells: &CellSet) -> Result<(), NoMemory>
    requires range { IsInRange (2 ^ 58) (alive cells.now) }
    requires quadrant { IsNotNegative (alive cells.now) }
    ensures { OnOk result (AppendsWords text.old.items text.new.items (IsBodyWord (alive cells.now))) }
{
    text.push(b' ')?;
    write_body(alloc, cells, text)
}

/// Appends both coordinates of a place, each with a space before it.
pub fn push_place(text: &mut Vec<u8>, place: Cell) -> Result<(), NoMemory>
    ensures { OnOk result (text.new.items ≡ text.old.items ++ spaced (place_words place)) }
{
    push_number(text, place.x)?;
    push_number(text, place.y)
}

/// Appends the top left of the cells' box, and the body word of the cells moved from there to (0,0).
fn push_placed(
    alloc: Global,
    text: &mut Vec<u8>,
    cells: &CellSet,
    bounds: Bounds,
) -> Result<(), NoMemory>
    requires least { IsLeastBox bounds (alive cells.now) }
    requires placed { IsPlaced (alive cells.now) }
    ensures { OnOk result (AppendsWords text.old.items text.new.items (IsPlacedText (alive cells.now))) }
{
    let corner = Cell::new(bounds.left, bounds.top);
    push_place(text, corner)?;
    let moved = cells.shift(-corner.x, -corner.y)?;
    push_body(alloc, text, &moved)?;
    Ok(())
}

/// The same, or `none` where there is no cell.
pub fn push_product(alloc: Global, text: &mut Vec<u8>, cells: &CellSet) -> Result<(), NoMemory>
    requires placed { IsPlaced (alive cells.now) }
    ensures { OnOk result (AppendsWords text.old.items text.new.items (IsProductText (alive cells.now))) }
{
    match cells.bounds() {
        None => push_word(text, "none"),
        Some(bounds) => push_placed(alloc, text, cells, bounds),
    }
}
