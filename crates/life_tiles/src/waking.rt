//! Rows that may change in the step after, since something changed beside them.

ghost use Rattle.std.specs.Prelude.{◌≡◌, ◌≢◌, ℕ, ◌<◌, ◌≤◌, IsTrue, length};
ghost use Rattle.life_tiles.specs.Spans.{InSpan, IsAwake, OnlyWakes, WakesRow, WakesAbout};

use crate::changing::Change;
use crate::span::Span;

/// Wakes the rows in and beside which something changes. The tile and those about it are given by their indices.
pub(crate) fn wake_about(waking: &mut [Span], about: &[usize; 9], change: Change)
    ensures { WakesAbout waking.old waking.new about.now change.rows change.columns }
{
    wake_row(
        waking,
        about[0],
        about[1],
        about[2],
        change.rows.above(),
        change.columns,
    );
    wake_row(
        waking,
        about[3],
        about[4],
        about[5],
        change.rows.around(),
        change.columns,
    );
    wake_row(
        waking,
        about[6],
        about[7],
        about[8],
        change.rows.below(),
        change.columns,
    );
}

/// Wakes rows of three tiles side by side: those to the west and to the east where the change reaches their border.
fn wake_row(waking: &mut [Span], west: usize, here: usize, east: usize, rows: Span, columns: u64)
    ensures { WakesRow waking.old waking.new west here east rows columns }
{
    if rows.is_empty() {
        return;
    }
    wake_if(waking, west, rows, columns & 1 != 0);
    wake_if(waking, here, rows, true);
    wake_if(waking, east, rows, columns >> 63 != 0);
}

/// Wakes rows of the tile at this index, where they change and there is one.
fn wake_if(waking: &mut [Span], index: usize, rows: Span, changes: bool)
    ensures wakes { OnlyWakes waking.old waking.new }
    ensures awake { IsTrue changes → index < length waking.old → (row : ℕ) → InSpan rows row → IsAwake waking.new index row }
{
    if changes && index < waking.len() {
        waking[index] = waking[index].joined(rows);
    }
}

/// Wakes all rows of the tiles before this index.
pub(crate) fn wake_all(spans: &mut [Span], count: usize)
    requires { count ≤ length spans.old }
    ensures { (i row : ℕ) → i < count → row < 64 → IsAwake spans.new i row }
{
    for index in 0..count {
        spans[index] = Span::ALL;
    }
}
