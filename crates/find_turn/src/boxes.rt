//! Least boxes: which generations aren't the end of a turn is told by theirs.

ghost use Rattle.std.specs.Prelude.{◌≡◌, ◌↔◌, ◌^◌, ◌+ℤ◌, IfOk, IsTrue};
ghost use Rattle.std.specs.List.{Any, AllByRecursion};
ghost use Rattle.life_cells.specs.Boxes.{IsBoxInRange};
ghost use Rattle.book_parts.specs.Limits.{AreProper};
ghost use Rattle.book_parts.specs.Proper.{IsProperKind};
ghost use Rattle.find_turn.specs.Boxes.{AreBoxesOf, IsMovedBox, IsNear, MayBeEnd};

use book_parts::{RawKind, Settings};
use life_cells::{Bounds, NoMemory};
use std::alloc::Global;

/// The least boxes of the kinds.
pub(crate) fn boxes_of(alloc: Global, kinds: &[RawKind]) -> Result<Vec<Bounds>, NoMemory>
    requires { AllByRecursion IsProperKind kinds.now }
    ensures boxes { IfOk result (λ boxes. AreBoxesOf kinds.now boxes.items) }
    ensures range { IfOk result (λ boxes. AllByRecursion (IsBoxInRange (2 ^ 30)) boxes.items) }
{
    let mut boxes = Vec::new(alloc);
    for kind in kinds {
        if let Some(bounds) = kind.cells.bounds() {
            boxes.push(bounds)?;
        }
    }
    Ok(boxes)
}

/// Whether the one coordinate is so many more than the other.
fn is_off_by(from: i64, to: i64, shift: i64) -> bool
    requires from { IsNear from }
    requires to { IsNear to }
    requires shift { IsNear shift }
    ensures { IsTrue result ↔ (to ≡ from +ℤ shift) }
{
    to == from + shift
}

/// Whether the one box is the other, moved along the diagonal.
fn is_moved(from: Bounds, to: Bounds) -> bool
    requires from { IsBoxInRange (2 ^ 30) from }
    requires to { IsBoxInRange (2 ^ 41) to }
    ensures { IsTrue result ↔ IsMovedBox from to }
{
    let shift = to.top - from.top;
    if !is_off_by(from.left, to.left, shift) {
        return false;
    }
    if !is_off_by(from.right, to.right, shift) {
        return false;
    }
    is_off_by(from.bottom, to.bottom, shift)
}

/// Whether a box is one of these, moved along the diagonal.
fn is_any_moved(boxes: &[Bounds], to: Bounds) -> bool
    requires boxes { AllByRecursion (IsBoxInRange (2 ^ 30)) boxes.now }
    requires to { IsBoxInRange (2 ^ 41) to }
    ensures { IsTrue result ↔ Any (λ from. IsMovedBox from to) boxes.now }
{
    for from in boxes {
        if is_moved(*from, to) {
            return true;
        }
    }
    false
}

/// Whether a turn may end with cells of this least box: it is that of a kind, moved along the diagonal, or a thrown glider may be in it.
pub(crate) fn may_be_end(settings: &Settings, boxes: &[Bounds], bounds: Bounds) -> bool
    requires settings { AreProper settings.now }
    requires boxes { AllByRecursion (IsBoxInRange (2 ^ 30)) boxes.now }
    requires bounds { IsBoxInRange (2 ^ 41) bounds }
    ensures { IsTrue result ↔ MayBeEnd settings.now boxes.now bounds }
{
    bounds.right - bounds.top >= settings.wall + 5 || is_any_moved(boxes, bounds)
}
