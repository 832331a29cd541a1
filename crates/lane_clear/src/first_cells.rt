//! The first built cell that is in the way of a hit.

ghost use Rattle.std.specs.Prelude.{◌≡◌, ◌↔◌, ◌^◌, IsTrue, MatchOption};
ghost use Rattle.life_plane.specs.Strips.{Each};
ghost use Rattle.life_cells.specs.Cells.{alive};
ghost use Rattle.life_cells.specs.Boxes.{IsInRange, IsCellInRange, IsBoxInRange};
ghost use Rattle.life_cells.specs.Firsts.{IsFirstOf};
ghost use Rattle.lane_clear.specs.Frames.{farthest, IsFrameInRange};
ghost use Rattle.lane_clear.specs.Clear.{IsOffBounds, IsAside};
ghost use Rattle.lane_clear.specs.Refusals.{Fails};

use life_cells::{Bounds, Cell, CellSet};
use life_cone::box_apart;
use recipe_hit::HitFrame;

/// The box of one cell.
fn box_of(cell: Cell) -> Bounds
    ensures { result ≡ record { left = cell.x; top = cell.y; right = cell.x; bottom = cell.y } }
{
    Bounds {
        left: cell.x,
        top: cell.y,
        right: cell.x,
        bottom: cell.y,
    }
}

/// Whether no cell of the bounds is within distance 2 of the cell.
fn is_off_bounds(bounds: Bounds, cell: Cell) -> bool
    requires bounds { IsBoxInRange (2 ^ 54) bounds }
    requires cell { IsCellInRange farthest cell }
    ensures { IsTrue result ↔ IsOffBounds bounds cell.x cell.y }
{
    box_apart(box_of(cell), bounds)
}

/// Whether the cell is off the lane of a hit's glider, or ahead of where the hit begins.
fn is_aside(frame: HitFrame, cell: Cell) -> bool
    requires frame { IsFrameInRange (2 ^ 54) frame }
    requires cell { IsCellInRange farthest cell }
    ensures { IsTrue result ↔ IsAside frame cell.x cell.y }
{
    let u = cell.x - cell.y;
    let v = cell.x + cell.y;
    let below = v <= frame.lane - 7;
    let above = v >= frame.lane + 6;
    let ahead = u >= frame.lane + 2 * frame.start + 10;
    below | above | ahead
}

/// The first built cell within distance 2 of the bounds, if there is one.
pub(crate) fn first_near(built: &CellSet, bounds: Bounds) -> Option<Cell>
    requires built { IsInRange farthest (alive built.now) }
    requires bounds { IsBoxInRange (2 ^ 54) bounds }
    ensures { MatchOption result (Each (IsOffBounds bounds) (alive built.now)) (IsFirstOf (Fails (IsOffBounds bounds) (alive built.now))) }
{
    for cell in built.cells() {
        if !is_off_bounds(bounds, *cell) {
            return Some(*cell);
        }
    }
    None
}

/// The first built cell on the lane of a hit's glider and not ahead of where the hit begins, if there is one.
pub(crate) fn first_in_lane(built: &CellSet, frame: HitFrame) -> Option<Cell>
    requires built { IsInRange farthest (alive built.now) }
    requires frame { IsFrameInRange (2 ^ 54) frame }
    ensures { MatchOption result (Each (IsAside frame) (alive built.now)) (IsFirstOf (Fails (IsAside frame) (alive built.now))) }
{
    for cell in built.cells() {
        if !is_aside(frame, *cell) {
            return Some(*cell);
        }
    }
    None
}
