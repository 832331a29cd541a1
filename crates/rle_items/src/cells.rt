//! The cells of items.

ghost use Rattle.std.specs.Prelude.{◌≡◌, ◌^◌, ◌++◌, pos, ◌+ℤ◌, ◌≤ℤ◌, OnOk};
ghost use Rattle.rle_items.specs.Cursor.{row_cells, item_cells};
ghost use Rattle.rle_items.specs.Reach.{IsInReach};

use crate::item::{Item, Tag};
use life_cells::{Cell, NoMemory};

/// Adds cells of a row from a first one on, so many.
fn add_row_cells(cells: &mut Vec<Cell>, first: Cell, count: u64) -> Result<(), NoMemory>
    requires first { IsInReach first }
    requires last { (first.x +ℤ pos count) ≤ℤ pos (2 ^ 40) }
    ensures { OnOk result (cells.new.items ≡ cells.old.items ++ row_cells first count) }
{
    for step in 0..count {
        cells.push(Cell::new(first.x + step as i64, first.y))?;
    }
    Ok(())
}

/// Adds the cells of an item, the first of them being this.
///
/// # Errors
///
/// `NoMemory` where there is no memory for them.
pub fn add_cells(cells: &mut Vec<Cell>, first: Cell, item: Item) -> Result<(), NoMemory>
    requires first { IsInReach first }
    requires last { item.tag ≡ Tag.Alive → (first.x +ℤ pos item.count) ≤ℤ pos (2 ^ 40) }
    ensures { OnOk result (cells.new.items ≡ cells.old.items ++ item_cells first item) }
{
    match item.tag {
        Tag::Alive => add_row_cells(cells, first, item.count),
        Tag::Dead | Tag::RowEnd => Ok(()),
    }
}
