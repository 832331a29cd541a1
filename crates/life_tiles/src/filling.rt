//! Cells that are put into tiles.

ghost use Rattle.std.specs.Prelude.{◌≡◌, ◌∷◌, [], ◌^◌, IfOk, OnOk};
ghost use Rattle.life_cells.specs.Boxes.{IsCellInRange, IsInRange};
ghost use Rattle.life_cells.specs.Listed.{listed};
ghost use Rattle.life_plane.specs.Plane.{union};
ghost use Rattle.life_tiles.specs.Tiling.{IsTiled, cells_of};
ghost use Rattle.life_tiles.specs.Stepping.{IsSettled, IsFresh};

use crate::place::{Place, down_in_tile, right_in_tile};
use crate::tile_map::{SIDE, TileMap};
use life_cells::{Cell, NoMemory};
use std::alloc::Global;

/// Makes a cell live.
pub(crate) fn add_cell(tiles: &mut TileMap, cell: Cell) -> Result<(), NoMemory>
    requires tiled { IsTiled tiles.old }
    requires range { IsCellInRange (2 ^ 61) cell }
    ensures tiled { IsTiled tiles.new }
    ensures recent { tiles.new.recent ≡ tiles.old.recent }
    ensures fresh { IsFresh tiles.old → IsFresh tiles.new }
    ensures added { OnOk result (cells_of tiles.new ≡ union (cells_of tiles.old) (listed (cell ∷ []))) }
{
    let index = tiles.make(Place::of(cell), true)?;
    let at = SIDE * index + down_in_tile(cell);
    tiles.rows[at] |= 1 << right_in_tile(cell);
    Ok(())
}

/// Tiles with these cells.
pub(crate) fn tiles_with(alloc: Global, cells: &[Cell]) -> Result<TileMap, NoMemory>
    requires { IsInRange (2 ^ 61) (listed cells.now) }
    ensures tiled { IfOk result IsTiled }
    ensures settled { IfOk result IsSettled }
    ensures cells { IfOk result (λ tiles. cells_of tiles ≡ listed cells.now) }
{
    let mut tiles = TileMap::new(alloc)?;
    for cell in cells {
        add_cell(&mut tiles, *cell)?;
    }
    Ok(tiles)
}
