//! Where a turn first leaves its bounds, looked for generation by generation.

ghost use Rattle.std.specs.Prelude.{◌≡◌, ◌+◌, ◌≤◌, ◌^◌, IfOk};
ghost use Rattle.std.specs.List.{AllByRecursion};
ghost use Rattle.life_plane.specs.Plane.{Plane, run};
ghost use Rattle.life_cells.specs.Cells.{alive};
ghost use Rattle.life_cells.specs.Boxes.{IsInRange};
ghost use Rattle.book_parts.specs.Limits.{AreProper};
ghost use Rattle.recipe_turn.specs.Turn.{IsAheadOrOwn};
ghost use Rattle.recipe_turn.specs.Breaches.{KeepsReach, IsKnown, AreKnown};
ghost use Rattle.book_parts.specs.Proper.{IsDelay};
ghost use Rattle.book_parts.specs.declared.limits.TheConstants.{LONGEST_TURN};

use crate::bounds::{Bound, first_breaking, is_clear};
use book_parts::Settings;
use life_cells::{Cell, CellSet, NoMemory};
use life_tiles::Tiles;

/// A generation with a cell out of bounds, and the first such cell in it.
#[derive(Clone, Copy)]
pub(crate) struct Breach {
    pub generation: u32,
    pub cell: Cell,
}

/// The first breach of the reach and of the tail among the generations that were looked at.
#[derive(Clone, Copy)]
pub(crate) struct Breaches {
    pub reach: Option<Breach>,
    pub tail: Option<Breach>,
}

impl Breaches {
    /// What is known before a generation was looked at.
    pub fn none() -> Self
        ensures reach { result.reach ≡ None }
        ensures tail { result.tail ≡ None }
    {
        Breaches {
            reach: None,
            tail: None,
        }
    }

    /// What is known once this generation was looked at too.
    pub fn after(
        self,
        settings: &Settings,
        delays: &[i64],
        generation: u32,
        tiles: &Tiles,
    ) -> Result<Self, NoMemory>
        requires settings { AreProper settings.now }
        requires delays { AllByRecursion IsDelay delays.now }
        requires time { generation ≤ LONGEST_TURN }
        requires range { IsInRange (2 ^ 41) (alive tiles.now.cells) }
        ensures { IfOk result (λ after. (start : Plane) → alive tiles.now.cells ≡ run generation start → AreKnown settings.now delays.now start generation self
            → AreKnown settings.now delays.now start (generation + 1) after) }
    {
        let Some(bounds) = tiles.bounds() else {
            return Ok(self);
        };
        if is_clear(settings, bounds) {
            return Ok(self);
        }
        let cells = tiles.to_cells()?;
        Ok(Breaches {
            reach: reach_breach(self.reach, settings, generation, &cells),
            tail: tail_breach(self.tail, settings, delays, generation, &cells),
        })
    }
}

/// The first breach of the reach once a generation's cells were looked at too.
fn reach_breach(
    found: Option<Breach>,
    settings: &Settings,
    generation: u32,
    cells: &CellSet,
) -> Option<Breach>
    requires settings { AreProper settings.now }
    requires range { IsInRange (2 ^ 41) (alive cells.now) }
    ensures { (start : Plane) → alive cells.now ≡ run generation start → IsKnown (KeepsReach settings.now) start generation found
        → IsKnown (KeepsReach settings.now) start (generation + 1) result }
{
    if found.is_some() {
        return found;
    }
    let cell = first_breaking(settings, Bound::Reach, cells)?;
    Some(Breach { generation, cell })
}

/// The first breach of the tail once a generation's cells were looked at too.
fn tail_breach(
    found: Option<Breach>,
    settings: &Settings,
    delays: &[i64],
    generation: u32,
    cells: &CellSet,
) -> Option<Breach>
    requires settings { AreProper settings.now }
    requires delays { AllByRecursion IsDelay delays.now }
    requires time { generation ≤ LONGEST_TURN }
    requires range { IsInRange (2 ^ 41) (alive cells.now) }
    ensures { (start : Plane) → alive cells.now ≡ run generation start → IsKnown (IsAheadOrOwn settings.now delays.now) start generation found
        → IsKnown (IsAheadOrOwn settings.now delays.now) start (generation + 1) result }
{
    if found.is_some() {
        return found;
    }
    let tail = Bound::Tail {
        delays,
        t: generation,
    };
    let cell = first_breaking(settings, tail, cells)?;
    Some(Breach { generation, cell })
}
