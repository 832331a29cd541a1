//! Tiles that are made about live cells before they evolve.

ghost use Rattle.std.specs.Prelude.{◌≡◌, ◌↔◌, ℕ, ◌+◌, ◌*◌, ◌<◌, ◌≤◌, ◌^◌, true, Some, slice_get, length, IsTrue, IsOk, OnOk, OnErr};
ghost use Rattle.life_cells.specs.Boxes.{IsInRange};
ghost use Rattle.life_kernel.specs.Rows.{test};
ghost use Rattle.life_tiles.specs.Tiled.{tile_count};
ghost use Rattle.life_tiles.specs.Tiling.{HasNeighbour, IsWithin, IsTiled, OnlyMakes, IsSurrounded, IsClosed, cells_of, set_of, words_of};
ghost use Rattle.life_tiles.specs.Stepping.{IsSettled};

use crate::linking::DIRECTIONS;
use crate::place::Place;
use crate::pruning::prune;
use crate::reading::any_of;
use crate::tile_map::{SIDE, TileMap};
use life_cells::NoMemory;

/// No live cell lies in a tile further out than this.
const FAR: i64 = 0x80_0000_0000_0000;

/// Makes tiles about each live cell and its neighbours, where there are none. Where the memory is used up, the empty tiles are given back,
/// and more is taken if that is not enough. No cell changes.
pub(crate) fn make_all_neighbours(tiles: &mut TileMap) -> Result<(), NoMemory>
    requires tiled { IsTiled tiles.old }
    requires settled { IsSettled tiles.old }
    requires range { IsInRange (2 ^ 61) (cells_of tiles.old) }
    ensures tiled { IsTiled tiles.new }
    ensures words { words_of tiles.new ≡ words_of tiles.old }
    ensures settled { IsSettled tiles.new }
    ensures closed { OnOk result (IsClosed tiles.new.places.keys (cells_of tiles.new)) }
    ensures room { tiles.old.room ≤ tiles.new.room }
    ensures succeeds { 9 * tile_count (set_of tiles.old) ≤ tiles.old.room → IsOk result }
{
    if make_neighbours(tiles, false).is_ok() {
        return Ok(());
    }
    prune(tiles);
    tiles.loosen();
    make_neighbours(tiles, true)
}

/// Makes tiles about each live cell of an awake row and its neighbours, where there are none. No cell changes.
fn make_neighbours(tiles: &mut TileMap, grows: bool) -> Result<(), NoMemory>
    requires tiled { IsTiled tiles.old }
    requires settled { IsSettled tiles.old }
    requires range { IsInRange (2 ^ 61) (cells_of tiles.old) }
    ensures makes { OnlyMakes tiles.old tiles.new }
    ensures closed { OnOk result (IsClosed tiles.new.places.keys (cells_of tiles.new)) }
    ensures full { OnErr result (tiles.old.room < 9 * length tiles.old.places.keys) }
{
    let count = tiles.places.len();
    'tiles: for index in 0..count {
        make_about(tiles, index, grows)?;
    }
    Ok(())
}

/// Makes tiles about the live cells of one tile's awake rows and their neighbours; there are at most eight.
fn make_about(tiles: &mut TileMap, index: usize, grows: bool) -> Result<(), NoMemory>
    requires tiled { IsTiled tiles.old }
    requires range { IsInRange (2 ^ 61) (cells_of tiles.old) }
    requires within { index < length tiles.old.places.keys }
    ensures makes { OnlyMakes tiles.old tiles.new }
    ensures about { OnOk result (IsSurrounded tiles.old tiles.new index) }
    ensures few { length tiles.new.places.keys ≤ length tiles.old.places.keys + 8 }
    ensures none { OnErr result (length tiles.new.places.keys ≤ length tiles.old.places.keys + 7) }
    ensures full { OnErr result (tiles.new.room ≤ length tiles.new.places.keys) }
{
    let span = tiles.awake[index];
    let place = tiles.places.as_slice()[index];
    if span.is_empty() || !is_close(place) {
        return Ok(());
    }
    let first = SIDE * index;
    let top = tiles.rows[first];
    let bottom = tiles.rows[first + 63];
    let any = any_of(&tiles.rows, first + span.from, first + span.to);
    make_row(tiles, index, place, 0, top, grows)?;
    make_sides(tiles, index, place, 3, any, grows)?;
    make_row(tiles, index, place, 6, bottom, grows)?;
    Ok(())
}

/// Whether a tile can have live cells.
fn is_close(place: Place) -> bool
    ensures { IsTrue result ↔ IsWithin (2 ^ 55) place }
{
    -FAR <= place.column && place.column <= FAR && -FAR <= place.row && place.row <= FAR
}

/// Makes the tiles of one row about a tile, from this direction on, that lie about a word's live cells or beside them; there are at most
/// three.
fn make_row(
    tiles: &mut TileMap,
    index: usize,
    place: Place,
    west: usize,
    word: u64,
    grows: bool,
) -> Result<(), NoMemory>
    requires tiled { IsTiled tiles.old }
    requires at { slice_get tiles.old.places.keys index ≡ Some place }
    requires near { IsWithin (2 ^ 55) place }
    requires west { west ≤ 6 }
    ensures makes { OnlyMakes tiles.old tiles.new }
    ensures here { OnOk result ((k : ℕ) → test word k ≡ true → HasNeighbour tiles.new.places.keys place (west + 1)) }
    ensures west { OnOk result (test word 0 ≡ true → HasNeighbour tiles.new.places.keys place west) }
    ensures east { OnOk result (test word 63 ≡ true → HasNeighbour tiles.new.places.keys place (west + 2)) }
    ensures few { length tiles.new.places.keys ≤ length tiles.old.places.keys + 3 }
    ensures none { OnErr result (length tiles.new.places.keys ≤ length tiles.old.places.keys + 2) }
    ensures full { OnErr result (tiles.new.room ≤ length tiles.new.places.keys) }
{
    make_if(tiles, index, place, west + 1, word != 0, grows)?;
    make_sides(tiles, index, place, west, word, grows)?;
    Ok(())
}

/// Makes the outer ones of these tiles, where a word's live cells lie beside them.
fn make_sides(
    tiles: &mut TileMap,
    index: usize,
    place: Place,
    west: usize,
    word: u64,
    grows: bool,
) -> Result<(), NoMemory>
    requires tiled { IsTiled tiles.old }
    requires at { slice_get tiles.old.places.keys index ≡ Some place }
    requires near { IsWithin (2 ^ 55) place }
    requires west { west ≤ 6 }
    ensures makes { OnlyMakes tiles.old tiles.new }
    ensures west { OnOk result (test word 0 ≡ true → HasNeighbour tiles.new.places.keys place west) }
    ensures east { OnOk result (test word 63 ≡ true → HasNeighbour tiles.new.places.keys place (west + 2)) }
    ensures few { length tiles.new.places.keys ≤ length tiles.old.places.keys + 2 }
    ensures none { OnErr result (length tiles.new.places.keys ≤ length tiles.old.places.keys + 1) }
    ensures full { OnErr result (tiles.new.room ≤ length tiles.new.places.keys) }
{
    make_if(tiles, index, place, west, word & 1 != 0, grows)?;
    make_if(tiles, index, place, west + 2, word >> 63 != 0, grows)?;
    Ok(())
}

/// Makes the tile in this direction of a tile, where it is wanted.
fn make_if(
    tiles: &mut TileMap,
    index: usize,
    place: Place,
    direction: usize,
    wanted: bool,
    grows: bool,
) -> Result<(), NoMemory>
    requires tiled { IsTiled tiles.old }
    requires at { slice_get tiles.old.places.keys index ≡ Some place }
    requires near { IsWithin (2 ^ 55) place }
    requires direction { direction < 9 }
    ensures makes { OnlyMakes tiles.old tiles.new }
    ensures there { OnOk result (IsTrue wanted → HasNeighbour tiles.new.places.keys place direction) }
    ensures few { length tiles.new.places.keys ≤ length tiles.old.places.keys + 1 }
    ensures none { OnErr result (length tiles.new.places.keys ≤ length tiles.old.places.keys) }
    ensures full { OnErr result (tiles.new.room ≤ length tiles.new.places.keys) }
{
    if !wanted {
        return Ok(());
    }
    let link = tiles.beside[DIRECTIONS * index + direction];
    if link < tiles.places.len() {
        return Ok(());
    }
    tiles.make(place.neighbour(direction), grows)?;
    Ok(())
}
