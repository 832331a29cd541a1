//! Which tiles lie beside which.

ghost use Rattle.std.specs.Prelude.{◌≡◌, ◌+◌, ◌*◌, ◌<◌, ◌≤◌, ◌^◌, ℕ, min, slice_index, length};
ghost use Rattle.life_tiles.specs.Tiling.{neighbour, IsWithin, AreNear, AreLinked, LinksAt, LinksTo};

use crate::place::Place;
use indexmap::IndexSet;

/// How many directions there are: row by row from the north-west, the place itself among them.
pub(crate) const DIRECTIONS: usize = 9;

/// The link to a place where no tile is.
pub(crate) const NOWHERE: usize = usize::MAX;

impl Place {
    /// The place in this direction: 0 is north-west, 1 north, 2 north-east, 3 west, 4 the place itself, and so on to 8, south-east.
    pub(crate) fn neighbour(self, direction: usize) -> Self
        requires near { IsWithin (2 ^ 60) self }
        requires direction { direction < 9 }
        ensures { result ≡ neighbour self direction }
    {
        Place {
            row: self.row + (direction / 3) as i64 - 1,
            column: self.column + (direction % 3) as i64 - 1,
        }
    }
}

/// The indices of the nine tiles about the one at this index; as many as there are tiles, where there is none.
#[inline(always)]
pub(crate) fn about(beside: &[usize], index: usize, count: usize) -> [usize; 9]
    requires { 9 * index + 9 ≤ length beside.now }
    ensures { (direction : ℕ) → direction < 9 → slice_index result direction ≡ min (slice_index beside.now (9 * index + direction)) count }
{
    let mut about = [0; DIRECTIONS];
    for direction in 0..DIRECTIONS {
        about[direction] = beside[DIRECTIONS * index + direction].min(count);
    }
    about
}

/// Links the tile at this index with those about it, and them with it.
pub(crate) fn link(places: &IndexSet<Place>, beside: &mut [usize], index: usize)
    requires near { AreNear places.now.keys }
    requires within { index < length places.now.keys }
    requires room { 9 * length places.now.keys ≤ length beside.old }
    requires small { length places.now.keys < 2 ^ 63 }
    ensures { LinksTo places.now.keys beside.old beside.new index 9 }
{
    for direction in 0..DIRECTIONS {
        link_at(places, beside, index, direction);
    }
}

/// The same in one direction.
fn link_at(places: &IndexSet<Place>, beside: &mut [usize], index: usize, direction: usize)
    requires near { AreNear places.now.keys }
    requires within { index < length places.now.keys }
    requires room { 9 * length places.now.keys ≤ length beside.old }
    requires small { length places.now.keys < 2 ^ 63 }
    requires direction { direction < 9 }
    ensures { LinksAt places.now.keys beside.old beside.new index direction }
{
    let place = places.as_slice()[index];
    match places.get_index_of(&place.neighbour(direction)) {
        Some(other) => {
            beside[DIRECTIONS * index + direction] = other;
            beside[DIRECTIONS * other + 8 - direction] = index;
        }
        None => beside[DIRECTIONS * index + direction] = NOWHERE,
    }
}

/// Links all tiles.
pub(crate) fn link_all(places: &IndexSet<Place>, beside: &mut [usize])
    requires near { AreNear places.now.keys }
    requires room { 9 * length places.now.keys ≤ length beside.old }
    requires small { length places.now.keys < 2 ^ 63 }
    ensures { AreLinked places.now.keys beside.new }
{
    let count = places.len();
    'tiles: for index in 0..count {
        link(places, beside, index);
    }
}
