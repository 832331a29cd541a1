//! Whether a generation keeps the bounds of a turn.

ghost use Rattle.std.specs.Prelude.{◌↔◌, ◌≤◌, ◌^◌, IfOk, IsTrue};
ghost use Rattle.std.specs.List.{AllByRecursion};
ghost use Rattle.life_cells.specs.Cells.{alive};
ghost use Rattle.life_cells.specs.Boxes.{IsInRange, IsLeastBox};
ghost use Rattle.book_parts.specs.Limits.{AreProper};
ghost use Rattle.book_parts.specs.Proper.{IsDelay};
ghost use Rattle.book_parts.specs.declared.limits.TheConstants.{LONGEST_TURN};
ghost use Rattle.recipe_turn.specs.Bounds.{KeepsBoth};

use crate::bounds::{Bound, first_breaking, is_clear};
use book_parts::Settings;
use life_cells::{Bounds, CellSet, NoMemory};
use life_tiles::Tiles;

/// Whether a generation of a turn keeps the reach and the tail, where its least box is given. The cells themselves are read only where the
/// box doesn't tell.
pub fn keeps_bounds(
    settings: &Settings,
    delays: &[i64],
    generation: u32,
    tiles: &Tiles,
    bounds: Bounds,
) -> Result<bool, NoMemory>
    requires settings { AreProper settings.now }
    requires delays { AllByRecursion IsDelay delays.now }
    requires time { generation ≤ LONGEST_TURN }
    requires range { IsInRange (2 ^ 41) (alive tiles.now.cells) }
    requires bounds { IsLeastBox bounds (alive tiles.now.cells) }
    ensures { IfOk result (λ kept. IsTrue kept ↔ KeepsBoth settings.now delays.now generation (alive tiles.now.cells)) }
{
    if is_clear(settings, bounds) {
        return Ok(true);
    }
    let cells = tiles.to_cells()?;
    Ok(each_keeps(settings, delays, generation, &cells))
}

/// Whether each of these cells keeps the reach and the tail.
fn each_keeps(settings: &Settings, delays: &[i64], generation: u32, cells: &CellSet) -> bool
    requires settings { AreProper settings.now }
    requires delays { AllByRecursion IsDelay delays.now }
    requires time { generation ≤ LONGEST_TURN }
    requires range { IsInRange (2 ^ 41) (alive cells.now) }
    ensures { IsTrue result ↔ KeepsBoth settings.now delays.now generation (alive cells.now) }
{
    let tail = Bound::Tail {
        delays,
        t: generation,
    };
    first_breaking(settings, Bound::Reach, cells).is_none()
        && first_breaking(settings, tail, cells).is_none()
}
