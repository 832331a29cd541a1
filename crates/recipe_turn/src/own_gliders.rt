//! The gliders of a turn, as they would travel had they met nothing.

ghost use Rattle.std.specs.Prelude.{◌≡◌, ◌≤◌, ℕ, pos, ◌+ℤ◌, ◌-ℤ◌, ◌*ℤ◌, IfOk};
ghost use Rattle.std.specs.List.{AllByRecursion};
ghost use Rattle.life_plane.specs.Tracks.{stream_glider};
ghost use Rattle.life_cells.specs.Listed.{listed};
ghost use Rattle.life_cells.specs.Cells.{alive};
ghost use Rattle.book_parts.specs.Limits.{AreProper, IsFrom};
ghost use Rattle.recipe_turn.specs.Turn.{gliders};
ghost use Rattle.recipe_turn.specs.Range.{IsWithinReach};
ghost use Rattle.book_parts.specs.Proper.{IsDelay};
ghost use Rattle.book_parts.specs.declared.limits.TheConstants.{LONGEST_TURN};

use crate::diagonals::ahead_of_tail;
use book_parts::Settings;
use life_cells::{Cell, CellSet, NoMemory};
use life_gliders::{Track, glider_cells};
use std::alloc::Global;

/// The cells at time t of the glider of one delay.
fn glider_at(settings: &Settings, delay: i64, t: u32) -> [Cell; 5]
    requires settings { AreProper settings.now }
    requires delay { IsDelay delay }
    requires time { t ≤ LONGEST_TURN }
    ensures { listed result ≡ stream_glider ((pos t -ℤ settings.now.approach) -ℤ delay) }
{
    glider_cells(Track::Stream, i64::from(t) - settings.approach - delay)
}

/// Whether the cells have this one.
fn has_cell(cells: &[Cell], cell: Cell) -> bool
    ensures { result ≡ listed cells.now cell.x cell.y }
{
    cells.contains(&cell)
}

/// Twice v = x + y of a cell, less the index of the glider of one delay at time t.
fn past_glider(settings: &Settings, delay: i64, t: u32, cell: Cell) -> i64
    requires settings { AreProper settings.now }
    requires delay { IsDelay delay }
    requires time { t ≤ LONGEST_TURN }
    requires cell { IsWithinReach cell.x cell.y }
    ensures { result ≡ pos 2 *ℤ (cell.x +ℤ cell.y) -ℤ ((pos t -ℤ settings.now.approach) -ℤ delay) }
{
    ahead_of_tail(settings, cell) + delay - i64::from(t)
}

/// Whether a cell is in the glider of one delay at time t.
fn glider_has(settings: &Settings, delay: i64, t: u32, cell: Cell) -> bool
    requires settings { AreProper settings.now }
    requires delay { IsDelay delay }
    requires time { t ≤ LONGEST_TURN }
    requires cell { IsWithinReach cell.x cell.y }
    ensures { result ≡ stream_glider ((pos t -ℤ settings.now.approach) -ℤ delay) cell.x cell.y }
{
    // The cells of index j have twice v from j + 1 to j + 8.
    let past = past_glider(settings, delay, t, cell);
    if past < 1 {
        return false;
    }
    if 8 < past {
        return false;
    }
    has_cell(&glider_at(settings, delay, t), cell)
}

/// Whether a cell is one of the turn's own gliders at time t.
pub(crate) fn is_own(settings: &Settings, delays: &[i64], t: u32, cell: Cell) -> bool
    requires settings { AreProper settings.now }
    requires delays { AllByRecursion IsDelay delays.now }
    requires time { t ≤ LONGEST_TURN }
    requires cell { IsWithinReach cell.x cell.y }
    ensures { result ≡ gliders settings.now delays.now (pos t) cell.x cell.y }
{
    for delay in delays {
        if glider_has(settings, *delay, t, cell) {
            return true;
        }
    }
    false
}

/// The turn's gliders as it begins.
pub fn starting_gliders(
    alloc: Global,
    settings: &Settings,
    delays: &[i64],
) -> Result<CellSet, NoMemory>
    requires settings { AreProper settings.now }
    requires delays { AllByRecursion IsDelay delays.now }
    ensures { IfOk result (λ s. alive s ≡ gliders settings.now delays.now (pos 0)) }
{
    let mut cells = Vec::new(alloc);
    for delay in delays {
        cells.extend_from_slice(&glider_at(settings, *delay, 0))?;
    }
    CellSet::from_cells(alloc, &cells)
}
