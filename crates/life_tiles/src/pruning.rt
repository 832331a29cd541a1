//! Tiles with no live cell are given back.

ghost use Rattle.std.specs.Prelude.{◌≡◌, ◌⊎◌, ℕ, ◌+◌, ◌*◌, ◌<◌, ◌≤◌, false, slice_index, length};
ghost use Rattle.life_tiles.specs.Tiling.{IsTiled, IsLiveTile, IsQuiet, words_of};
ghost use Rattle.life_tiles.specs.Stepping.{IsFresh};
ghost use Rattle.life_tiles.specs.Pruning.{EachLives, IsKeeping, Keeps};

use crate::linking::link_all;
use crate::reading::any_of;
use crate::tile_map::{SIDE, TileMap};
use crate::waking::wake_all;
use std::mem::swap;

/// Gives back the tiles with no live cell, and forgets what was a generation ago. No cell changes.
pub(crate) fn prune(tiles: &mut TileMap)
    requires { IsTiled tiles.old }
    ensures tiled { IsTiled tiles.new }
    ensures words { words_of tiles.new ≡ words_of tiles.old }
    ensures lives { EachLives tiles.new }
    ensures room { tiles.new.room ≡ tiles.old.room }
    ensures recent { tiles.new.recent ≡ false }
    ensures fresh { IsQuiet tiles.old → IsFresh tiles.new }
{
    let count = tiles.places.len();
    'tiles: for index in 0..count {
        keep_if_live(tiles, index);
    }
    let kept = tiles.kept.len();
    clear_words(&mut tiles.rows, SIDE * kept, SIDE * count);
    clear_words(&mut tiles.next, SIDE * kept, SIDE * count);
    swap(&mut tiles.places, &mut tiles.kept);
    tiles.kept.clear();
    link_all(&tiles.places, &mut tiles.beside);
    wake_all(&mut tiles.awake, kept);
    tiles.recent = false;
}

/// Puts the tile at this index behind those that are kept, if it has a live cell.
fn keep_if_live(tiles: &mut TileMap, index: usize)
    requires keeping { IsKeeping tiles.old index }
    requires within { index < length tiles.old.places.keys }
    ensures { Keeps tiles.old tiles.new index }
{
    if any_of(&tiles.rows, SIDE * index, SIDE * index + SIDE) != 0 {
        keep(tiles, index);
    }
}

/// Puts the tile at this index, which has a live cell, behind those that are kept.
fn keep(tiles: &mut TileMap, index: usize)
    requires keeping { IsKeeping tiles.old index }
    requires within { index < length tiles.old.places.keys }
    requires lives { IsLiveTile tiles.old.rows.items index }
    ensures { Keeps tiles.old tiles.new index }
{
    let place = tiles.places.as_slice()[index];
    let to = tiles.kept.len();
    let _ = tiles.kept.insert_full(place);
    move_words(&mut tiles.rows, SIDE * index, SIDE * to);
}

/// Copies 64 words to their place or an earlier one.
fn move_words(words: &mut [u64], from: usize, to: usize)
    requires room { from + 64 ≤ length words.old }
    requires apart { (to ≡ from) ⊎ (to + 64 ≤ from) }
    ensures moved { (down : ℕ) → down < 64 → slice_index words.new (to + down) ≡ slice_index words.old (from + down) }
    ensures others { (j : ℕ) → (j < to) ⊎ (to + 64 ≤ j) → slice_index words.new j ≡ slice_index words.old j }
{
    for down in 0..SIDE {
        words[to + down] = words[from + down];
    }
}

/// Makes the words from one index up to another 0.
fn clear_words(words: &mut [u64], from: usize, to: usize)
    requires order { from ≤ to }
    requires room { to ≤ length words.old }
    ensures cleared { (j : ℕ) → from ≤ j → j < to → slice_index words.new j ≡ 0 }
    ensures others { (j : ℕ) → (j < from) ⊎ (to ≤ j) → slice_index words.new j ≡ slice_index words.old j }
{
    for at in from..to {
        words[at] = 0;
    }
}
