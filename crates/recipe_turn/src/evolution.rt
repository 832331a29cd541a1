//! A turn, generation by generation.

ghost use Rattle.std.specs.Prelude.{◌≡◌, ◌+◌, ◌≤◌, ◌^◌, IfOk};
ghost use Rattle.std.specs.List.{AllByRecursion};
ghost use Rattle.life_plane.specs.Plane.{run};
ghost use Rattle.life_cells.specs.Cells.{alive};
ghost use Rattle.life_cells.specs.Boxes.{IsInRange};
ghost use Rattle.book_parts.specs.Limits.{AreProper};
ghost use Rattle.recipe_turn.specs.Breaches.{AreKnown};
ghost use Rattle.book_parts.specs.Proper.{IsDelay};
ghost use Rattle.book_parts.specs.declared.limits.TheConstants.{LONGEST_TURN};

use crate::breaches::Breaches;
use book_parts::Settings;
use life_cells::{CellSet, NoMemory};
use life_steps::Steps;
use life_tiles::Tiles;
use std::alloc::Global;
use std::sync::ledger::Ledger;

/// What a turn comes to, and where it first leaves its bounds.
#[derive(Drop)]
pub(crate) struct Course {
    /// The cells of the turn's last generation.
    pub last: CellSet,
    /// The first breaches among all its generations, the last with them.
    pub breaches: Breaches,
}

/// The course of a turn of n generations from its start. Each generation is stepped once and looked at once.
pub(crate) fn evolve<L: Ledger>(
    alloc: Global,
    settings: &Settings,
    delays: &[i64],
    n: u32,
    start: &CellSet,
    steps: &mut Steps<L>,
) -> Result<Course, NoMemory>
    requires settings { AreProper settings.now }
    requires delays { AllByRecursion IsDelay delays.now }
    requires n { n ≤ LONGEST_TURN }
    requires range { IsInRange (2 ^ 40) (alive start.now) }
    ensures last { IfOk result (λ course. alive course.last ≡ run n (alive start.now)) }
    ensures breaches { IfOk result (λ course. AreKnown settings.now delays.now (alive start.now) (n + 1) course.breaches) }
    ensures least { steps.old ≤ steps.new }
    ensures most { steps.new ≤ steps.old + n }
{
    let mut tiles = Tiles::from_cells(alloc, start)?;
    tiles.reserve(tiles.tile_count().saturating_mul(9))?;
    let mut breaches = Breaches::none();
    for generation in 0..n {
        breaches = breaches.after(settings, delays, generation, &tiles)?;
        tiles.step(steps)?;
    }
    let breaches = breaches.after(settings, delays, n, &tiles)?;
    let last = tiles.to_cells()?;
    Ok(Course { last, breaches })
}
