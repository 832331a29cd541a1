//! The gliders of a turn, as cells.

ghost use Rattle.std.specs.Prelude.{◌≡◌, ℕ, ◌≤◌, pos, ◌-ℤ◌, ◌*ℤ◌, OnOk};
ghost use Rattle.std.specs.List.{AllByRecursion};
ghost use Rattle.life_plane.specs.Plane.{union};
ghost use Rattle.life_plane.specs.Tracks.{stream_glider};
ghost use Rattle.life_cells.specs.Listed.{listed};
ghost use Rattle.book_parts.specs.Limits.{AreProper};
ghost use Rattle.book_parts.specs.Proper.{IsDelay, IsProperTurn};
ghost use Rattle.recipe_turn.specs.Turn.{gliders};
ghost use Rattle.event_times.specs.Events.{turn_gliders};
ghost use Rattle.event_times.specs.Early.{IsNearShift, latest_end};
ghost use Rattle.stream_time.specs.Laying.{IsTime};

use book_parts::{RawTurn, Settings};
use life_cells::{Cell, NoMemory};
use life_gliders::{Track, glider_cells};

/// The cells at a time of the glider of one delay.
fn glider_at(settings: &Settings, delay: i64, time: i64) -> [Cell; 5]
    requires settings { AreProper settings.now }
    requires delay { IsDelay delay }
    requires time { IsTime time }
    ensures { listed result ≡ stream_glider ((time -ℤ settings.now.approach) -ℤ delay) }
{
    glider_cells(Track::Stream, time - settings.approach - delay)
}

/// Appends the gliders of these delays, the first of them due at this time less the approach.
fn push_gliders(
    cells: &mut Vec<Cell>,
    settings: &Settings,
    delays: &[i64],
    time: i64,
) -> Result<(), NoMemory>
    requires settings { AreProper settings.now }
    requires delays { AllByRecursion IsDelay delays.now }
    requires time { IsTime time }
    ensures { OnOk result (listed cells.new.items ≡ union (listed cells.old.items) (gliders settings.now delays.now time)) }
{
    for delay in delays {
        cells.extend_from_slice(&glider_at(settings, *delay, time))?;
    }
    Ok(())
}

/// The generation of the elbow's own frame in which the pattern stands, where a turn starts so late at this shift.
fn time_of(shift: i64, start: u64) -> i64
    requires shift { IsNearShift shift }
    requires start { start ≤ latest_end }
    ensures time { result ≡ pos 4 *ℤ shift -ℤ pos start }
    ensures range { IsTime result }
{
    4 * shift - start as i64
}

/// Appends the gliders of a turn that starts in this generation, with the elbow at this shift before it.
pub(crate) fn push_turn(
    cells: &mut Vec<Cell>,
    settings: &Settings,
    turn: &RawTurn,
    shift: i64,
    start: u64,
) -> Result<(), NoMemory>
    requires settings { AreProper settings.now }
    requires turn { (kinds : ℕ) × IsProperTurn kinds turn.now }
    requires shift { IsNearShift shift }
    requires start { start ≤ latest_end }
    ensures { OnOk result (listed cells.new.items ≡ union (listed cells.old.items) (turn_gliders settings.now (record { turn = turn.now; shift = shift; start = start }))) }
{
    push_gliders(cells, settings, turn.delays.items(), time_of(shift, start))
}
