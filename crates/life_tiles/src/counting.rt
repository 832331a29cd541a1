//! How many tiles have live cells.

ghost use Rattle.std.specs.Prelude.{◌≡◌};
ghost use Rattle.life_tiles.specs.Tiled.{tile_count};
ghost use Rattle.life_tiles.specs.Tiling.{IsTiled, set_of};

use crate::reading::any_of;
use crate::tile_map::{SIDE, TileMap};

/// How many tiles have live cells.
pub(crate) fn live_count(tiles: &TileMap) -> usize
    requires { IsTiled tiles.now }
    ensures { result ≡ tile_count (set_of tiles.now) }
{
    let mut live = 0;
    let count = tiles.places.len();
    'tiles: for index in 0..count {
        if any_of(&tiles.rows, SIDE * index, SIDE * index + SIDE) != 0 {
            live += 1;
        }
    }
    live
}
