//! The least box that holds cells.

ghost use Rattle.std.specs.Prelude.{◌≡◌, [], IfSome, IfNone};
ghost use Rattle.life_cells.specs.Boxes.{IsLeastBox};
ghost use Rattle.life_cells.specs.Listed.{listed};
ghost use Rattle.life_plane.specs.Plane.{Plane, union};

use crate::bounds::Bounds;
use crate::cell::Cell;

/// The least box that holds the listed cells; None exactly where there are none.
pub(crate) fn bounds_of(cells: &[Cell]) -> Option<Bounds>
    ensures some { IfSome result (λ box. IsLeastBox box (listed cells.now)) }
    ensures none { IfNone result (cells.now ≡ []) }
{
    let [first, rest @ ..] = cells else {
        return None;
    };
    Some(widened(Bounds::at(*first), rest))
}

/// The least box that holds what this one holds, and the listed cells.
fn widened(start: Bounds, cells: &[Cell]) -> Bounds
    ensures { (s : Plane) → IsLeastBox start s → IsLeastBox result (union s (listed cells.now)) }
{
    let mut bounds = start;
    for cell in cells {
        bounds = bounds.with(*cell);
    }
    bounds
}
