//! The next generation of each tile.

ghost use Rattle.std.specs.Prelude.{◌≡◌, ◌*◌, ◌<◌, ◌≤◌, ℕ, ℤ, length};
ghost use Rattle.life_plane.specs.Plane.{step};
ghost use Rattle.life_tiles.specs.Tiling.{IsTiled, cells_in};
ghost use Rattle.life_tiles.specs.Stepping.{IsSettled, IsAsleep, IsGrid, FillsTile, FillsAll};

use crate::changing::change_of;
use crate::linking::about;
use crate::place::Place;
use crate::span::Span;
use crate::tile_map::{SIDE, TileMap};
use crate::tile_step::fill_rows;
use crate::waking::wake_about;
use indexmap::IndexSet;

/// Writes the next generation of each tile into `next`, and marks in `waking` the rows that may become other than they are now.
pub(crate) fn fill_next(tiles: &mut TileMap)
    requires tiled { IsTiled tiles.old }
    requires settled { IsSettled tiles.old }
    ensures tiled { IsTiled tiles.new }
    ensures places { tiles.new.places ≡ tiles.old.places }
    ensures rows { tiles.new.rows ≡ tiles.old.rows }
    ensures recent { tiles.new.recent ≡ tiles.old.recent }
    ensures room { tiles.new.room ≡ tiles.old.room }
    ensures fills { FillsAll tiles.old.places.keys tiles.old.rows.items tiles.old.next.items tiles.new.next.items tiles.old.awake.items tiles.new.awake.items tiles.old.waking.items tiles.new.waking.items }
{
    fill_all(
        &tiles.places,
        &tiles.rows,
        &tiles.beside,
        &mut tiles.next,
        &mut tiles.awake,
        &mut tiles.waking,
    );
}

/// The same for the parts of the tiles.
fn fill_all(
    places: &IndexSet<Place>,
    rows: &[u64],
    beside: &[usize],
    next: &mut [u64],
    awake: &mut [Span],
    waking: &mut [Span],
)
    requires grid { IsGrid places.now.keys rows.now beside.now }
    requires next { 64 * length places.now.keys ≤ length next.old }
    requires awake { length places.now.keys ≤ length awake.old }
    requires waking { length places.now.keys ≤ length waking.old }
    requires rested { (i : ℕ) (x y : ℤ) → IsAsleep places.now.keys awake.old i x y → cells_in places.now.keys next.old x y ≡ step (cells_in places.now.keys rows.now) x y }
    ensures { FillsAll places.now.keys rows.now next.old next.new awake.old awake.new waking.old waking.new }
{
    let count = places.len();
    'tiles: for index in 0..count {
        fill_tile(places, rows, beside, next, awake, waking, index);
    }
}

/// The same for one tile. Rows that are not awake have their next generation already.
fn fill_tile(
    places: &IndexSet<Place>,
    rows: &[u64],
    beside: &[usize],
    next: &mut [u64],
    awake: &mut [Span],
    waking: &mut [Span],
    index: usize,
)
    requires grid { IsGrid places.now.keys rows.now beside.now }
    requires within { index < length places.now.keys }
    requires next { 64 * length places.now.keys ≤ length next.old }
    requires awake { length places.now.keys ≤ length awake.old }
    requires waking { length places.now.keys ≤ length waking.old }
    requires rested { (x y : ℤ) → IsAsleep places.now.keys awake.old index x y → cells_in places.now.keys next.old x y ≡ step (cells_in places.now.keys rows.now) x y }
    ensures { FillsTile places.now.keys rows.now next.old next.new awake.old awake.new waking.old waking.new index }
{
    let span = awake[index];
    awake[index] = Span::NONE;
    if span.is_empty() {
        return;
    }
    let about = about(beside, index, places.len());
    let mut changes = [0; SIDE];
    fill_rows(rows, next, &mut changes, &about, span);
    wake_about(waking, &about, change_of(&changes, span));
}
