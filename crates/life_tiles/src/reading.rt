//! The live cells of tiles, and the least box about them.

ghost use Rattle.std.specs.Prelude.{◌≡◌, ◌++◌, ◌∷◌, [], true, cond, ℕ, ◌+◌, ◌*◌, ◌<◌, ◌≤◌, ◌^◌, pos, ◌+ℤ◌, ◌*ℤ◌, slice_index, length, IfOk, OnOk};
ghost use Rattle.life_cells.specs.Boxes.{IsLeastBox, IsBoxOf};
ghost use Rattle.life_cells.specs.Cells.{cell};
ghost use Rattle.life_cells.specs.Listed.{listed};
ghost use Rattle.life_kernel.specs.Rows.{test};
ghost use Rattle.life_plane.specs.Plane.{Plane, union};
ghost use Rattle.life_tiles.specs.Tiling.{IsWithin, IsTiled, cells_of, word_cells, tile_cells, list_cells};

use crate::place::Place;
use crate::tile_map::{SIDE, TileMap};
use life_cells::{Bounds, Cell, NoMemory};
use std::alloc::Global;

/// The live cells, tile by tile, each from its top.
pub(crate) fn live_cells(alloc: Global, tiles: &TileMap) -> Result<Vec<Cell>, NoMemory>
    requires { IsTiled tiles.now }
    ensures { IfOk result (λ cells. cells.items ≡ list_cells tiles.now.places.keys tiles.now.rows.items (length tiles.now.places.keys)) }
{
    let mut cells = Vec::new(alloc);
    let count = tiles.places.len();
    'tiles: for index in 0..count {
        let place = tiles.places.as_slice()[index];
        push_tile(&mut cells, place, &tiles.rows, SIDE * index)?;
    }
    Ok(cells)
}

/// Appends the live cells of a tile, whose words begin at this index.
fn push_tile(
    cells: &mut Vec<Cell>,
    place: Place,
    rows: &[u64],
    first: usize,
) -> Result<(), NoMemory>
    requires near { IsWithin (2 ^ 56) place }
    requires room { first + 64 ≤ length rows.now }
    ensures { OnOk result (cells.new.items ≡ cells.old.items ++ tile_cells place rows.now first 64) }
{
    if any_of(rows, first, first + SIDE) == 0 {
        return Ok(());
    }
    'rows: for down in 0..SIDE {
        push_word(cells, place, down, rows[first + down])?;
    }
    Ok(())
}

/// Appends the live cells of a word, which lies so far down in its tile.
fn push_word(cells: &mut Vec<Cell>, place: Place, down: usize, word: u64) -> Result<(), NoMemory>
    requires near { IsWithin (2 ^ 56) place }
    requires down { down < 64 }
    ensures { OnOk result (cells.new.items ≡ cells.old.items ++ word_cells place down word 64) }
{
    if word == 0 {
        return Ok(());
    }
    let first = word.trailing_zeros() as usize;
    let end = 64 - word.leading_zeros() as usize;
    'columns: for right in first..end {
        push_if(cells, cell_at(place, right, down), word >> right & 1 == 1)?;
    }
    Ok(())
}

/// Appends a cell, if it lives.
fn push_if(cells: &mut Vec<Cell>, cell: Cell, lives: bool) -> Result<(), NoMemory>
    ensures { OnOk result (cells.new.items ≡ cells.old.items ++ cond lives (cell ∷ []) []) }
{
    if lives {
        cells.push(cell)?;
    }
    Ok(())
}

/// The cell so far right and down in a tile.
pub(crate) fn cell_at(place: Place, right: usize, down: usize) -> Cell
    requires near { IsWithin (2 ^ 56) place }
    requires right { right < 64 }
    requires down { down < 64 }
    ensures { result ≡ cell (pos 64 *ℤ place.column +ℤ pos right) (pos 64 *ℤ place.row +ℤ pos down) }
{
    Cell::new(
        64 * place.column + right as i64,
        64 * place.row + down as i64,
    )
}

/// The columns in which a word has a live cell, from this one up to another.
pub(crate) fn any_of(words: &[u64], from: usize, to: usize) -> u64
    requires { to ≤ length words.now }
    ensures all { (j k : ℕ) → from ≤ j → j < to → test (slice_index words.now j) k ≡ true → test result k ≡ true }
    ensures some { (k : ℕ) → test result k ≡ true → (j : ℕ) × (from ≤ j) × (j < to) × (test (slice_index words.now j) k ≡ true) }
{
    let mut any = 0;
    for at in from..to {
        any |= words[at];
    }
    any
}
