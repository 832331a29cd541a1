//! Which kind stands, moved along the diagonal.

ghost use Rattle.std.specs.Prelude.{◌≡◌, ◌↔◌, ◌<◌, ◌^◌, ℤ, IsTrue, MatchOption, map, length};
ghost use Rattle.std.specs.List.{All, AllByRecursion};
ghost use Rattle.life_plane.specs.Plane.{shift};
ghost use Rattle.life_cells.specs.Cells.{alive};
ghost use Rattle.life_cells.specs.Boxes.{IsInRange, IsCellInRange};
ghost use Rattle.life_cells.specs.Moved.{moved};
ghost use Rattle.book_parts.specs.Limits.{IsPlaced};
ghost use Rattle.book_parts.specs.Proper.{IsProperKind, HasLife};
ghost use Rattle.find_turn.specs.Boxes.{IsNear};
ghost use Rattle.find_turn.specs.Standing.{IsFirstStanding, NoneStands};

use book_parts::RawKind;
use life_cells::{Cell, CellSet};

/// Whether the one cell is the other, moved right and down by so many.
fn is_moved(from: Cell, to: Cell, shift: i64) -> bool
    requires from { IsCellInRange (2 ^ 30) from }
    requires shift { IsNear shift }
    ensures { IsTrue result ↔ (to ≡ moved shift shift from) }
{
    to.x == from.x + shift && to.y == from.y + shift
}

/// Whether these cells are the others, in the same order, each moved right and down by so many.
fn are_moved(from: &[Cell], to: &[Cell], shift: i64) -> bool
    requires same { length from.now ≡ length to.now }
    requires range { All (IsCellInRange (2 ^ 30)) from.now }
    requires shift { IsNear shift }
    ensures { IsTrue result ↔ (to.now ≡ map (moved shift shift) from.now) }
{
    for place in 0..from.len() {
        if !is_moved(from[place], to[place], shift) {
            return false;
        }
    }
    true
}

/// How far the first of these cells is moved down to be the first of the others.
fn first_shift(from: &[Cell], to: &[Cell]) -> i64
    requires some { 0 < length from.now }
    requires same { length from.now ≡ length to.now }
    requires from_range { All (IsCellInRange (2 ^ 30)) from.now }
    requires to_range { All (IsCellInRange (2 ^ 41)) to.now }
    ensures near { IsNear result }
    ensures only { (a : ℤ) → to.now ≡ map (moved a a) from.now → result ≡ a }
{
    to[0].y - from[0].y
}

/// How far the one set is moved along the diagonal where it is the other; None exactly where it isn't the other moved along the diagonal.
fn shift_onto(from: &CellSet, to: &CellSet) -> Option<i64>
    requires lives { HasLife (alive from.now) }
    requires placed { IsPlaced (alive from.now) }
    requires range { IsInRange (2 ^ 41) (alive to.now) }
    ensures { MatchOption result ((a : ℤ) → alive to.now ≡ shift a a (alive from.now) → ⊥) (λ a. alive to.now ≡ shift a a (alive from.now)) }
{
    let (from, to) = (from.cells(), to.cells());
    if from.len() != to.len() {
        return None;
    }
    let shift = first_shift(from, to);
    if !are_moved(from, to, shift) {
        return None;
    }
    Some(shift)
}

/// The number, counted from 1, of the first kind that stands here, moved along the diagonal, with nothing beside it, and how far it is moved;
/// None exactly where none does.
pub(crate) fn first_standing(kinds: &[RawKind], cells: &CellSet) -> Option<(usize, i64)>
    requires kinds { AllByRecursion IsProperKind kinds.now }
    requires range { IsInRange (2 ^ 41) (alive cells.now) }
    ensures { MatchOption result (NoneStands kinds.now (alive cells.now)) (λ found. IsFirstStanding kinds.now (alive cells.now) found.0 found.1) }
{
    for (place, kind) in kinds.iter().enumerate() {
        if let Some(shift) = shift_onto(&kind.cells, cells) {
            return Some((place + 1, shift));
        }
    }
    None
}
