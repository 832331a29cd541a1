//! The next generation of the rows of one tile.

ghost use Rattle.std.specs.Prelude.{◌≡◌, ◌+◌, ◌*◌, ◌<◌, ◌≤◌, ℕ, slice_index, length};
ghost use Rattle.life_kernel.specs.declared.row.Row.{Row};
ghost use Rattle.life_tiles.specs.Rows.{word_about, row_about, HaveWords, HasAbout, FillsRows};

use crate::span::Span;
use crate::tile_map::SIDE;
use life_kernel::{Row, next_word};

/// Writes the next generation of some rows of a tile into `next`, and into `changes` what is other there than before. The tile and those
/// about it are given by their indices.
pub(crate) fn fill_rows(
    rows: &[u64],
    next: &mut [u64],
    changes: &mut [u64; 64],
    about: &[usize; 9],
    span: Span,
)
    requires about { HasAbout about.now rows.now next.old }
    requires some { span.from < span.to }
    ensures { FillsRows rows.now about.now next.old next.new changes.old changes.new span.from span.to }
{
    if span.to < SIDE {
        fill_upper(rows, next, changes, about, span);
        return;
    }
    let upper = Span {
        from: span.from,
        to: SIDE - 1,
    };
    fill_upper(rows, next, changes, about, upper);
    fill_row(rows, next, changes, about, SIDE - 1);
}

/// The same for rows of which none is the lowest.
fn fill_upper(
    rows: &[u64],
    next: &mut [u64],
    changes: &mut [u64; 64],
    about: &[usize; 9],
    span: Span,
)
    requires about { HasAbout about.now rows.now next.old }
    requires order { span.from ≤ span.to }
    requires some { 0 < span.to }
    requires within { span.to < 64 }
    ensures { FillsRows rows.now about.now next.old next.new changes.old changes.new span.from span.to }
{
    if span.from > 0 {
        fill_inner(rows, next, changes, about, span);
        return;
    }
    let inner = Span {
        from: 1,
        to: span.to,
    };
    fill_row(rows, next, changes, about, 0);
    fill_inner(rows, next, changes, about, inner);
}

/// The same for rows of which none is the highest or the lowest.
fn fill_inner(
    rows: &[u64],
    next: &mut [u64],
    changes: &mut [u64; 64],
    about: &[usize; 9],
    span: Span,
)
    requires about { HasAbout about.now rows.now next.old }
    requires order { span.from ≤ span.to }
    requires low { 0 < span.from }
    requires high { span.to < 64 }
    ensures { FillsRows rows.now about.now next.old next.new changes.old changes.new span.from span.to }
{
    let west = SIDE * about[3];
    let here = SIDE * about[4];
    let east = SIDE * about[5];
    for down in span.from..span.to {
        let word = next_word(
            row_at(rows, west, here, east, down - 1),
            row_at(rows, west, here, east, down),
            row_at(rows, west, here, east, down + 1),
        );
        let at = here + down;
        changes[down] = next[at] ^ word;
        next[at] = word;
    }
}

/// The same for one row.
fn fill_row(
    rows: &[u64],
    next: &mut [u64],
    changes: &mut [u64; 64],
    about: &[usize; 9],
    down: usize,
)
    requires about { HasAbout about.now rows.now next.old }
    requires down { down < 64 }
    ensures { FillsRows rows.now about.now next.old next.new changes.old changes.new down (down + 1) }
{
    let word = next_word(
        row_of(rows, about, down),
        row_of(rows, about, down + 1),
        row_of(rows, about, down + 2),
    );
    let own = SIDE * about[4] + down;
    changes[down] = next[own] ^ word;
    next[own] = word;
}

/// The words of a row of three tiles side by side, whose words begin at these indices.
#[inline(always)]
fn row_at(rows: &[u64], west: usize, here: usize, east: usize, down: usize) -> Row
    requires west { west + down < length rows.now }
    requires here { here + down < length rows.now }
    requires east { east + down < length rows.now }
    ensures { result ≡ record { west = slice_index rows.now (west + down); here = slice_index rows.now (here + down); east = slice_index rows.now (east + down) } }
{
    Row {
        west: rows[west + down],
        here: rows[here + down],
        east: rows[east + down],
    }
}

/// The words of a row of a tile and those beside it, counted from the row above the tile.
fn row_of(rows: &[u64], about: &[usize; 9], at: usize) -> Row
    requires about { HaveWords about.now rows.now }
    requires at { at < 66 }
    ensures { result ≡ row_about rows.now about.now at }
{
    Row {
        west: word_of(rows, about[0], about[3], about[6], at),
        here: word_of(rows, about[1], about[4], about[7], at),
        east: word_of(rows, about[2], about[5], about[8], at),
    }
}

/// One of the words of a tile, with the lowest of the tile above before them and the highest of the tile below behind them.
fn word_of(rows: &[u64], above: usize, here: usize, below: usize, at: usize) -> u64
    requires above { 64 * above + 64 ≤ length rows.now }
    requires here { 64 * here + 64 ≤ length rows.now }
    requires below { 64 * below + 64 ≤ length rows.now }
    requires at { at < 66 }
    ensures { result ≡ word_about rows.now above here below at }
{
    if at == 0 {
        return rows[SIDE * above + 63];
    }
    if at == 65 {
        return rows[SIDE * below];
    }
    rows[SIDE * here + at - 1]
}
