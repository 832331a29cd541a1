//! What changes in a tile.

ghost use Rattle.std.specs.Prelude.{◌≡◌, ◌<◌, ◌≤◌, ℕ, true, slice_index};
ghost use Rattle.life_kernel.specs.Rows.{test};
ghost use Rattle.life_tiles.specs.Spans.{InSpan};

use crate::reading::any_of;
use crate::span::Span;

/// What changes in a tile.
#[derive(Clone, Copy, Debug)]
pub(crate) struct Change {
    /// The rows from the first to the last that change.
    pub rows: Span,
    /// The columns in which some row changes.
    pub columns: u64,
}

/// What changes among some rows of a tile: the cells that change are given, row by row.
pub(crate) fn change_of(changes: &[u64; 64], span: Span) -> Change
    ensures rows { (down : ℕ) → InSpan span down → (InSpan result.rows down → ⊥) → slice_index changes.now down ≡ 0 }
    ensures columns { (down k : ℕ) → InSpan span down → test (slice_index changes.now down) k ≡ true → test result.columns k ≡ true }
{
    let columns = any_of(changes, span.from, span.to);
    if columns == 0 {
        return Change {
            rows: Span::NONE,
            columns,
        };
    }
    let rows = Span {
        from: first_change(changes, span),
        to: end_of_changes(changes, span),
    };
    Change { rows, columns }
}

/// The first of these rows that changes; the one behind them, if none does.
fn first_change(changes: &[u64; 64], span: Span) -> usize
    ensures { (down : ℕ) → InSpan span down → down < result → slice_index changes.now down ≡ 0 }
{
    for down in span.from..span.to {
        if changes[down] != 0 {
            return down;
        }
    }
    span.to
}

/// The row behind the last of these rows that changes; the first, if none does.
fn end_of_changes(changes: &[u64; 64], span: Span) -> usize
    ensures changed { (down : ℕ) → InSpan span down → result ≤ down → slice_index changes.now down ≡ 0 }
    ensures fits { result ≤ 64 }
{
    for down in (span.from..span.to).rev() {
        if changes[down] != 0 {
            return down + 1;
        }
    }
    0
}
