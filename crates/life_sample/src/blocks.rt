//! Blocks along the diagonal.

ghost use Rattle.std.specs.Prelude.{◌≡◌, ◌++◌, ◌≤◌, pos, IfOk, OnOk};
ghost use Rattle.life_cells.specs.Cells.{from_list};
ghost use Rattle.life_sample.specs.Sample.{block, blocks};

use crate::limits::{GREATEST_GAP, LEAST_GAP, MOST_COUNT};
use life_cells::{Cell, CellSet, NoMemory};
use std::alloc::Global;

/// Appends the cells of the block with its top left at (corner,corner).
fn push_block(cells: &mut Vec<Cell>, corner: u32) -> Result<(), NoMemory>
    ensures { OnOk result (cells.new.items ≡ cells.old.items ++ block (pos corner)) }
{
    let near = i64::from(corner);
    let far = near + 1;
    cells.extend_from_slice(&[
        Cell::new(near, near),
        Cell::new(far, near),
        Cell::new(near, far),
        Cell::new(far, far),
    ])?;
    Ok(())
}

/// So many blocks: the first has its top left at (0,0), and each other one stands the gap right of and below the one before.
pub(crate) fn blocks(alloc: Global, count: u32, gap: u32) -> Result<CellSet, NoMemory>
    requires few { count ≤ MOST_COUNT }
    requires wide { LEAST_GAP ≤ gap }
    requires near { gap ≤ GREATEST_GAP }
    ensures { IfOk result (λ cells. cells ≡ from_list (blocks gap count)) }
{
    let mut cells = Vec::new(alloc);
    for place in 0..count {
        push_block(&mut cells, place * gap)?;
    }
    Ok(CellSet::from_rising(cells))
}
