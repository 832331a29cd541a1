//! The room for the places of the hand.

ghost use Rattle.std.specs.Prelude.{◌≡◌, ◌↔◌, ◌^◌, ◌<◌, ◌≤ℤ◌, ◌-ℤ◌, ◌<ℤ◌, pos, unsigned_abs, IsTrue};
ghost use Rattle.life_cells.specs.Boxes.{InBox};
ghost use Rattle.hand_route.specs.Rooms.{IsSide, IsRoom, width_of, size_of, index_in};

use lane_clear::has_cell;
use life_cells::{Bounds, Cell};

/// The most places of a room from left to right, and from top to bottom.
pub const MOST_PLACES: i64 = 3_072;

/// How far the sides of a room may be from (0,0).
pub const FARTHEST: i64 = 1 << 50;

/// Whether bounds are a room: they have a place, at most as many as a room may have from left to right and from top to bottom, and their
/// sides lie from -2^50 to 2^50.
pub fn is_room(bounds: Bounds) -> bool
    ensures { IsTrue result ↔ IsRoom bounds }
{
    let columns = is_side(bounds.left, bounds.right);
    let rows = is_side(bounds.top, bounds.bottom);
    columns & rows
}

/// Whether two ends are those of a side of a room.
fn is_side(low: i64, high: i64) -> bool
    ensures { IsTrue result ↔ IsSide low high }
{
    if low < -FARTHEST || FARTHEST < high || high < low {
        return false;
    }
    high - low < MOST_PLACES
}

/// How far a number is past another.
fn past(low: i64, z: i64) -> usize
    requires order { low ≤ℤ z }
    requires near { (z -ℤ low) <ℤ pos (2 ^ 62) }
    ensures { result ≡ unsigned_abs (z -ℤ low) }
{
    (z - low) as usize
}

/// How many places a room has from left to right.
fn width(room: Bounds) -> usize
    requires { IsRoom room }
    ensures { result ≡ width_of room }
{
    past(room.left, room.right) + 1
}

/// How many places a room has.
pub(crate) fn size(room: Bounds) -> usize
    requires { IsRoom room }
    ensures { result ≡ size_of room }
{
    (past(room.top, room.bottom) + 1) * width(room)
}

/// Whether the room has the place.
pub fn has(room: Bounds, at: Cell) -> bool
    ensures { IsTrue result ↔ InBox room at.x at.y }
{
    has_cell(room, at)
}

/// Where a place of the room stands among all of them, row by row, counted from 0.
pub(crate) fn index(room: Bounds, at: Cell) -> usize
    requires room { IsRoom room }
    requires at { InBox room at.x at.y }
    ensures is { result ≡ index_in room at }
    ensures within { result < size_of room }
{
    past(room.top, at.y) * width(room) + past(room.left, at.x)
}
