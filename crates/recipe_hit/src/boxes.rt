//! Boxes that grow, and boxes near each other.

ghost use Rattle.std.specs.Prelude.{◌≡◌, ◌↔◌, ◌^◌, IsTrue};
ghost use Rattle.life_cells.specs.Boxes.{IsLeastBox, IsBoxOf, IsBoxInRange};
ghost use Rattle.life_plane.specs.Plane.{Plane, union};
ghost use Rattle.recipe_hit.specs.Strike.{IsNear};

use crate::limits::BEYOND;
use life_cells::Bounds;

/// The least box that holds what a box holds, and more cells, whose own box is given where there are any.
pub(crate) fn grown(bounds: Bounds, more: Option<Bounds>) -> Bounds
    ensures { (s t : Plane) → IsLeastBox bounds s → IsBoxOf more t → IsLeastBox result (union s t) }
{
    match more {
        Some(more) => bounds.joined(more),
        None => bounds,
    }
}

/// Whether a box goes at most 8,192 beyond another on each side.
pub(crate) fn is_near(bounds: Bounds, other: Bounds) -> bool
    requires { IsBoxInRange (2 ^ 40) other }
    ensures { IsTrue result ↔ IsNear bounds other }
{
    if bounds.left < other.left - BEYOND {
        return false;
    }
    if bounds.top < other.top - BEYOND {
        return false;
    }
    if other.right + BEYOND < bounds.right {
        return false;
    }
    bounds.bottom <= other.bottom + BEYOND
}
