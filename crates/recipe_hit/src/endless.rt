//! Patterns of which it is seen, while they evolve, that they never rest.

ghost use Rattle.std.specs.Prelude.{◌≡◌, ◌⊎◌, ◌<◌, ◌^◌, IsTrue, IfOk, OnOk};
ghost use Rattle.life_cells.specs.Boxes.{IsInRange};
ghost use Rattle.life_cells.specs.Cells.{alive};
ghost use Rattle.recipe_hit.specs.Endless.{NeverStill};

use crate::leading::is_led;
use life_cells::{CellSet, NoMemory};
use life_tiles::Tiles;
use std::alloc::Global;

/// After so many generations a pattern is looked at again. What comes back after 2, 3, 4, 5 or 6 of them is seen to do so.
const LAP: u32 = 60;

/// Whether it is seen, now and then, that a pattern never rests: it is as it was before, or a glider leads it. Whenever it is looked at it is
/// kept for the next time.
pub(crate) fn goes_on(
    alloc: Global,
    tiles: &Tiles,
    generation: u32,
    before: &mut CellSet,
) -> Result<bool, NoMemory>
    requires { IsInRange (2 ^ 58) (alive tiles.now.cells) }
    ensures seen { IfOk result (λ seen. IsTrue seen → ((0 < generation) × (tiles.now.cells ≡ before.old)) ⊎ NeverStill (alive tiles.now.cells)) }
    ensures kept { OnOk result ((before.new ≡ before.old) ⊎ (before.new ≡ tiles.now.cells)) }
{
    if generation == 0 || generation % LAP != 0 {
        return Ok(false);
    }
    let now = tiles.to_cells()?;
    if now.equal(before) {
        return Ok(true);
    }
    let led = is_led(alloc, &now)?;
    *before = now;
    Ok(led)
}
