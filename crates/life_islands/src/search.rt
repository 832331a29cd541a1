//! A search from one cell for all that are joined with it.

ghost use Rattle.std.specs.Prelude.{IfOk, OnOk};
ghost use Rattle.life_cells.specs.Cells.{alive};
ghost use Rattle.life_cells.specs.Listed.{listed};
ghost use Rattle.life_islands.specs.Joined.{Lives, Links};
ghost use Rattle.life_islands.specs.Search.{Adds, AreAllJoined};

use indexmap::IndexSet;
use life_cells::{Cell, CellSet, NoMemory};
use std::alloc::Global;

/// The cells that are joined with this one, in the order in which a search by breadth finds them.
pub(crate) fn joined_with(
    alloc: Global,
    cells: &CellSet,
    start: Cell,
) -> Result<IndexSet<Cell>, NoMemory>
    requires { Lives (alive cells.now) start }
    ensures { IfOk result (λ found. AreAllJoined (alive cells.now) start found.keys) }
{
    let mut found = IndexSet::new(alloc);
    found.insert(start)?;
    let mut place = 0;
    'cells: while place < found.len() {
        let here = found.as_slice()[place];
        add_linked(&mut found, cells, here)?;
        place += 1;
    }
    Ok(found)
}

/// Adds the cells to which a link leads from this one.
fn add_linked(found: &mut IndexSet<Cell>, cells: &CellSet, here: Cell) -> Result<(), NoMemory>
    ensures { OnOk result (Adds (Links (alive cells.now) here) found.old.keys found.new.keys) }
{
    for dy in -2..3 {
        add_all(found, cells.close_in_row(here, dy))?;
    }
    Ok(())
}

/// Adds these cells.
pub(crate) fn add_all(found: &mut IndexSet<Cell>, cells: &[Cell]) -> Result<(), NoMemory>
    ensures { OnOk result (Adds (Lives (listed cells.now)) found.old.keys found.new.keys) }
{
    for cell in cells {
        found.insert(*cell)?;
    }
    Ok(())
}
