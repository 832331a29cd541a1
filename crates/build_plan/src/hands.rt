//! Places of the hand.

ghost use Rattle.std.specs.Prelude.{◌≡◌, ◌↔◌, ◌^◌, IsTrue, Some};
ghost use Rattle.life_cells.specs.Boxes.{InBox, IsCellInRange};
ghost use Rattle.life_cells.specs.Moved.{moved};
ghost use Rattle.book_parts.specs.Limits.{IsCoordinate};
ghost use Rattle.hand_route.specs.Moves.{leaves_hand};
ghost use Rattle.build_plan.specs.Throws.{place_past};

use life_cells::{Bounds, Cell};
use recipe_hit::CheckedSalvo;

/// Whether a place is in the room.
pub(crate) fn is_in_room(room: Bounds, at: Cell) -> bool
    ensures { IsTrue result ↔ InBox room at.x at.y }
{
    let right_of_left = room.left <= at.x;
    let below_top = room.top <= at.y;
    let left_of_right = at.x <= room.right;
    let above_bottom = at.y <= room.bottom;
    right_of_left & below_top & left_of_right & above_bottom
}

/// A place, moved so far.
fn moved(from: Cell, by: Cell) -> Cell
    requires from { IsCellInRange (2 ^ 50) from }
    requires x { IsCoordinate by.x }
    requires y { IsCoordinate by.y }
    ensures { result ≡ moved by.x by.y from }
{
    Cell::new(from.x + by.x, from.y + by.y)
}

/// Where a salvo leaves the hand that stood there before it, if it leaves one.
pub(crate) fn hand_after(salvo: &CheckedSalvo, from: Cell) -> Option<Cell>
    requires { IsCellInRange (2 ^ 50) from }
    ensures { result ≡ leaves_hand salvo.now from }
{
    let _ = salvo.raw();
    match salvo.leaves() {
        Some(by) => Some(moved(from, by)),
        None => None,
    }
}

/// Where a hand is after a salvo; where it is gone, its last place.
pub(crate) fn place_past(salvo: &CheckedSalvo, from: Cell) -> Cell
    requires { IsCellInRange (2 ^ 50) from }
    ensures { result ≡ place_past (Some salvo.now) from }
{
    match hand_after(salvo, from) {
        Some(to) => to,
        None => from,
    }
}
