//! The next generation takes the place of the one before.

ghost use Rattle.std.specs.Prelude.{◌≡◌, ◌≢◌, ◌+◌, ◌*◌, ◌<◌, ◌≤◌, ℕ, true, false, MatchOption, length};
ghost use Rattle.std.specs.Bool.{MatchBool, OnTrue};
ghost use Rattle.life_tiles.specs.Spans.{IsAwake};
ghost use Rattle.life_tiles.specs.Tiling.{IsTiled, Differ, AreSame, cells_of};

use crate::span::Span;
use crate::tile_map::{SIDE, TileMap};
use crate::waking::wake_all;
use std::mem::swap;

/// Makes the words in `next` those of now, and keeps those of before. The answer is whether a cell changed.
pub(crate) fn advance(tiles: &mut TileMap) -> bool
    requires { IsTiled tiles.old }
    ensures tiled { IsTiled tiles.new }
    ensures places { tiles.new.places ≡ tiles.old.places }
    ensures rows { tiles.new.rows ≡ tiles.old.next }
    ensures next { tiles.new.next ≡ tiles.old.rows }
    ensures awake { tiles.old.recent ≡ true → tiles.new.awake.items ≡ tiles.old.waking.items }
    ensures fresh { tiles.old.recent ≡ false → (i row : ℕ) → i < length tiles.new.places.keys → row < 64 → IsAwake tiles.new.awake.items i row }
    ensures waking { tiles.new.waking ≡ tiles.old.awake }
    ensures room { tiles.new.room ≡ tiles.old.room }
    ensures changed { MatchBool result (cells_of tiles.new ≢ cells_of tiles.old) (cells_of tiles.new ≡ cells_of tiles.old) }
{
    let count = tiles.places.len();
    let found = changed_tile(&tiles.rows, &tiles.next, count, tiles.stirring);
    wake_unless(&mut tiles.waking, count, tiles.recent);
    swap(&mut tiles.rows, &mut tiles.next);
    swap(&mut tiles.awake, &mut tiles.waking);
    tiles.recent = true;
    tiles.stirring = found.unwrap_or(0);
    found.is_some()
}

/// Wakes all rows of so many tiles, unless what was a generation ago is known.
fn wake_unless(spans: &mut [Span], count: usize, recent: bool)
    requires { count ≤ length spans.old }
    ensures known { recent ≡ true → spans.new ≡ spans.old }
    ensures unknown { recent ≡ false → (i row : ℕ) → i < count → row < 64 → IsAwake spans.new i row }
{
    if !recent {
        wake_all(spans, count);
    }
}

/// The index of a tile of which a word changes, among so many; this one is looked at first.
fn changed_tile(rows: &[u64], next: &[u64], count: usize, first: usize) -> Option<usize>
    requires rows { 64 * count ≤ length rows.now }
    requires next { 64 * count ≤ length next.now }
    ensures { MatchOption result (AreSame rows.now next.now 0 (64 * count)) (λ index. Differ rows.now next.now 0 (64 * count)) }
{
    if is_changed(rows, next, count, first) {
        return Some(first);
    }
    'tiles: for index in 0..count {
        if tile_differs(rows, next, SIDE * index) {
            return Some(index);
        }
    }
    None
}

/// Whether this is one of so many tiles, and a word of it changes.
fn is_changed(rows: &[u64], next: &[u64], count: usize, index: usize) -> bool
    requires rows { 64 * count ≤ length rows.now }
    requires next { 64 * count ≤ length next.now }
    ensures { OnTrue result (Differ rows.now next.now 0 (64 * count)) }
{
    if index >= count {
        return false;
    }
    tile_differs(rows, next, SIDE * index)
}

/// Whether a word of a tile changes; its words begin at this index.
fn tile_differs(rows: &[u64], next: &[u64], first: usize) -> bool
    requires rows { first + 64 ≤ length rows.now }
    requires next { first + 64 ≤ length next.now }
    ensures { MatchBool result (Differ rows.now next.now first (first + 64)) (AreSame rows.now next.now first (first + 64)) }
{
    for down in 0..SIDE {
        let old = rows[first + down];
        let new = next[first + down];
        if old != new {
            return true;
        }
    }
    false
}
