//! The items of a list of cells.

ghost use Rattle.std.specs.Prelude.{◌≡◌, ◌++◌, ◌^◌, OnOk, IfOk, neg_ℤ, pos, ◌≤ℤ◌};
ghost use Rattle.life_cells.specs.Cells.{cell, IsRising};
ghost use Rattle.life_cells.specs.Listed.{listed};
ghost use Rattle.life_cells.specs.Boxes.{IsInRange};
ghost use Rattle.rle_items.specs.Items.{AreCells};
ghost use Rattle.life_rle.specs.Drawn.{some_of, IsBehind, IsAhead, IsNext, HasGap, IsTidyFrom, AreSmall};

use life_cells::{Cell, NoMemory};
use rle_items::item::{Item, Tag};
use std::alloc::Global;

/// Appends an item, unless it counts nothing.
fn push_some(items: &mut Vec<Item>, count: u64, tag: Tag) -> Result<(), NoMemory>
    ensures { OnOk result (items.new.items ≡ items.old.items ++ some_of count tag) }
{
    if count > 0 {
        items.push(Item { count, tag })?;
    }
    Ok(())
}

/// Appends the items that lead from one cell to a later one that doesn't follow it at once.
fn push_gap(items: &mut Vec<Item>, left: i64, from: Cell, to: Cell) -> Result<(), NoMemory>
    requires low { neg_ℤ (pos (2 ^ 58)) ≤ℤ left }
    requires top { neg_ℤ (pos (2 ^ 58)) ≤ℤ from.y }
    requires from { left ≤ℤ from.x }
    requires next { IsNext left from to }
    requires apart { IsAhead from to }
    ensures { OnOk result (HasGap left from to items.old.items items.new.items) }
{
    if from.y < to.y {
        let count = (to.y - from.y) as u64;
        items.push(Item {
            count,
            tag: Tag::RowEnd,
        })?;
        return push_some(items, (to.x - left) as u64, Tag::Dead);
    }
    let count = (to.x - from.x) as u64;
    items.push(Item {
        count,
        tag: Tag::Dead,
    })?;
    Ok(())
}

/// The items of rising cells, the first of them at the column `left` and the row `top`: the live runs of each row,
/// dead runs only before live ones, and the ends of rows only between rows that live.
pub fn items_of(alloc: Global, cells: &[Cell], left: i64, top: i64) -> Result<Vec<Item>, NoMemory>
    requires rising { IsRising cells.now }
    requires range { IsInRange (2 ^ 58) (listed cells.now) }
    requires left { neg_ℤ (pos (2 ^ 58)) ≤ℤ left }
    requires top { neg_ℤ (pos (2 ^ 58)) ≤ℤ top }
    requires behind { IsBehind left top (listed cells.now) }
    ensures cells { IfOk result (λ items. AreCells (cell left top) items.items (listed cells.now)) }
    ensures tidy { IfOk result (λ items. IsTidyFrom top cells.now items.items) }
    ensures small { IfOk result (λ items. AreSmall items.items) }
{
    let mut items = Vec::new(alloc);
    let mut pen = Cell::new(left, top);
    let mut run = 0u64;
    for cell in cells {
        if *cell != pen {
            push_some(&mut items, run, Tag::Alive)?;
            push_gap(&mut items, left, pen, *cell)?;
            run = 0;
        }
        run += 1;
        pen = Cell::new(cell.x + 1, cell.y);
    }
    push_some(&mut items, run, Tag::Alive)?;
    Ok(items)
}
