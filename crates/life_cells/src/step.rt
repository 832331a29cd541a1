//! Conway's rule on finite sets, one generation at a time.
//!
//! Each live cell marks the nine places within distance 1 of it, itself among them. A place that
//! is marked three times lives in the next generation, and one that is marked four times lives
//! exactly where it lived.

ghost use Rattle.std.specs.Prelude.{◌≡◌, ◌^◌, IfOk};
ghost use Rattle.life_cells.specs.Cells.{alive};
ghost use Rattle.life_cells.specs.Boxes.{IsInRange};
ghost use Rattle.life_plane.specs.Plane.{step, run};

use crate::cell_set::CellSet;
use crate::memory::NoMemory;
use crate::near::near_places;
use crate::survivors::survivors;
use std::alloc::Global;

/// The next generation.
pub fn step_plain(alloc: Global, cells: &CellSet) -> Result<CellSet, NoMemory>
    requires { IsInRange (2 ^ 61) (alive cells.now) }
    ensures { IfOk result (λ next. alive next ≡ step (alive cells.now)) }
{
    next_generation(alloc, cells)
}

/// The n-th generation.
pub fn run_plain(alloc: Global, cells: &CellSet, n: u32) -> Result<CellSet, NoMemory>
    requires { IsInRange (2 ^ 61) (alive cells.now) }
    ensures { IfOk result (λ last. alive last ≡ run n (alive cells.now)) }
{
    let mut now = cells.copy()?;
    'generations: for _generation in 0..n {
        now = next_generation(alloc, &now)?;
    }
    Ok(now)
}

/// The next generation, of cells that may lie as far as a long run takes them.
fn next_generation(alloc: Global, cells: &CellSet) -> Result<CellSet, NoMemory>
    requires { IsInRange (2 ^ 62) (alive cells.now) }
    ensures { IfOk result (λ next. alive next ≡ step (alive cells.now)) }
{
    let mut near = near_places(alloc, cells.cells())?;
    near.sort()?;
    let next = survivors(alloc, &near, cells)?;
    Ok(CellSet::from_rising(next))
}
