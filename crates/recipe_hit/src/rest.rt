//! How a pattern comes to rest.

ghost use Rattle.std.specs.Prelude.{◌+◌, ◌≤◌, ◌^◌, IfOk, IfSome, IfNone};
ghost use Rattle.life_cells.specs.Cells.{alive};
ghost use Rattle.life_cells.specs.Boxes.{IsInRange, IsLeastBox};
ghost use Rattle.recipe_hit.specs.Rest.{IsRestOf, NeverRests};
ghost use Rattle.recipe_hit.specs.declared.limits.TheConstants.{MOST_COUNTED};

use crate::boxes::grown;
use crate::endless::goes_on;
use crate::limits::LONGEST_HIT;
use life_cells::{Bounds, CellSet, NoMemory};
use life_steps::Steps;
use life_tiles::Tiles;
use std::alloc::Global;
use std::sync::ledger::Ledger;

/// A pattern that has come to rest.
#[derive(Drop)]
pub(crate) struct Rest {
    /// What is left.
    pub after: CellSet,
    /// The first generation that is still.
    pub generations: u32,
    /// The bounds of all cells of the generations up to that one.
    pub bounds: Bounds,
}

/// How a pattern comes to rest, whose least box is given; None exactly where none of the generations from 0 to 4,096 is still. Each
/// generation that is looked at is stepped once, and counted; none is where it is seen that the pattern never rests.
pub(crate) fn come_to_rest<L: Ledger>(
    alloc: Global,
    start: &CellSet,
    bounds: Bounds,
    steps: &mut Steps<L>,
) -> Result<Option<Rest>, NoMemory>
    requires range { IsInRange (2 ^ 44) (alive start.now) }
    requires bounds { IsLeastBox bounds (alive start.now) }
    ensures some { IfOk result (λ found. IfSome found (IsRestOf (alive start.now))) }
    ensures none { IfOk result (λ found. IfNone found (NeverRests (alive start.now))) }
    ensures least { steps.old ≤ steps.new }
    ensures most { steps.new ≤ steps.old + MOST_COUNTED }
{
    let mut tiles = Tiles::from_cells(alloc, start)?;
    tiles.reserve(tiles.tile_count().saturating_mul(9))?;
    let mut bounds = bounds;
    let mut before = start.copy()?;
    for generation in 0..=LONGEST_HIT {
        if goes_on(alloc, &tiles, generation, &mut before)? {
            return Ok(None);
        }
        if !tiles.step(steps)? {
            let after = tiles.to_cells()?;
            return Ok(Some(Rest {
                after,
                generations: generation,
                bounds,
            }));
        }
        bounds = grown(bounds, tiles.bounds());
    }
    Ok(None)
}
