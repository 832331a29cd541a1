//! The places near live cells.

ghost use Rattle.std.specs.Prelude.{◌≡◌, ◌++◌, ◌^◌, ◌≤ℤ◌, pos, negsuc, IfOk, OnOk};
ghost use Rattle.life_cells.specs.Boxes.{IsInRange};
ghost use Rattle.life_cells.specs.Listed.{listed};
ghost use Rattle.life_cells.specs.Near.{near_row, near_list};

use crate::cell::Cell;
use crate::memory::NoMemory;
use crate::moved::push_moved;
use std::alloc::Global;

/// For each cell the nine places within distance 1.
pub(crate) fn near_places(alloc: Global, cells: &[Cell]) -> Result<Vec<Cell>, NoMemory>
    requires { IsInRange (2 ^ 62) (listed cells.now) }
    ensures { IfOk result (λ near. near.items ≡ near_list cells.now) }
{
    let mut near = Vec::with_capacity(alloc, cells.len().saturating_mul(9))?;
    push_row(&mut near, cells, -1)?;
    push_row(&mut near, cells, 0)?;
    push_row(&mut near, cells, 1)?;
    Ok(near)
}

/// Appends for each cell the three places nearest to it in the row dy below its own.
fn push_row(into: &mut Vec<Cell>, cells: &[Cell], dy: i64) -> Result<(), NoMemory>
    requires in_range { IsInRange (2 ^ 62) (listed cells.now) }
    requires low { negsuc 0 ≤ℤ dy }
    requires high { dy ≤ℤ pos 1 }
    ensures { OnOk result (into.new.items ≡ into.old.items ++ near_row dy cells.now) }
{
    push_moved(into, cells, -1, dy)?;
    push_moved(into, cells, 0, dy)?;
    push_moved(into, cells, 1, dy)
}
