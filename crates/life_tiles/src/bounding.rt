//! The least box about the live cells of tiles.

ghost use Rattle.std.specs.Prelude.{◌≡◌, ◌+◌, ◌*◌, ◌<◌, ◌≤◌, ◌^◌, ℕ, MatchOption, slice_index, length};
ghost use Rattle.life_cells.specs.Boxes.{IsLeastBox, IsBoxOf};
ghost use Rattle.life_cells.specs.Listed.{listed};
ghost use Rattle.life_plane.specs.Plane.{Plane, union};
ghost use Rattle.life_tiles.specs.LiveRows.{HasCell, AreLiveRows, tile_box};
ghost use Rattle.life_tiles.specs.Tiling.{IsWithin, IsTiled, cells_of, tile_cells, list_cells};

use crate::place::Place;
use crate::reading::{any_of, cell_at};
use crate::span::Span;
use crate::tile_map::{SIDE, TileMap};
use life_cells::Bounds;

/// The least box about the live cells; None exactly where there are none.
pub(crate) fn bounds_of(tiles: &TileMap) -> Option<Bounds>
    requires { IsTiled tiles.now }
    ensures { IsBoxOf result (cells_of tiles.now) }
{
    let mut found = None;
    let count = tiles.places.len();
    'tiles: for index in 0..count {
        let place = tiles.places.as_slice()[index];
        found = with_tile(found, place, &tiles.rows, SIDE * index);
    }
    found
}

/// The box with the live cells of a tile too, whose words begin at this index.
fn with_tile(found: Option<Bounds>, place: Place, rows: &[u64], first: usize) -> Option<Bounds>
    requires near { IsWithin (2 ^ 56) place }
    requires room { first + 64 ≤ length rows.now }
    ensures { (s : Plane) → IsBoxOf found s → IsBoxOf result (union s (listed (tile_cells place rows.now first 64))) }
{
    let columns = any_of(rows, first, first + SIDE);
    if columns == 0 {
        return found;
    }
    let tile = tile_box(place, live_rows(rows, first), columns);
    match found {
        None => Some(tile),
        Some(bounds) => Some(bounds.joined(tile)),
    }
}

/// The box about these rows of a tile, from the first to the last of these columns.
fn tile_box(place: Place, span: Span, columns: u64) -> Bounds
    requires near { IsWithin (2 ^ 56) place }
    requires row { span.from < span.to }
    requires column { 0 < columns }
    ensures { result ≡ tile_box place span columns }
{
    let start = cell_at(place, columns.trailing_zeros() as usize, span.from);
    let end = cell_at(place, (63 - columns.leading_zeros()) as usize, span.to - 1);
    Bounds {
        left: start.x,
        top: start.y,
        right: end.x,
        bottom: end.y,
    }
}

/// The rows of a tile from the first to the last with a live cell; its words begin at this index.
fn live_rows(rows: &[u64], first: usize) -> Span
    requires { first + 64 ≤ length rows.now }
    ensures { AreLiveRows rows.now first result }
{
    Span {
        from: first_live(rows, first),
        to: end_of_live(rows, first),
    }
}

/// The first row with a live cell; 64 if there is none.
fn first_live(rows: &[u64], first: usize) -> usize
    requires { first + 64 ≤ length rows.now }
    ensures dead { (down : ℕ) → down < 64 → down < result → slice_index rows.now (first + down) ≡ 0 }
    ensures lives { result < 64 → HasCell (slice_index rows.now (first + result)) }
{
    for down in 0..SIDE {
        if rows[first + down] != 0 {
            return down;
        }
    }
    SIDE
}

/// The row behind the last one with a live cell; 0 if there is none.
fn end_of_live(rows: &[u64], first: usize) -> usize
    requires { first + 64 ≤ length rows.now }
    ensures dead { (down : ℕ) → down < 64 → result ≤ down → slice_index rows.now (first + down) ≡ 0 }
    ensures lives { (down : ℕ) → down + 1 ≡ result → HasCell (slice_index rows.now (first + down)) }
    ensures fits { result ≤ 64 }
{
    for down in (0..SIDE).rev() {
        if rows[first + down] != 0 {
            return down + 1;
        }
    }
    0
}
