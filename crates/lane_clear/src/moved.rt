//! Frames of hits at the hand's place.

ghost use Rattle.std.specs.Prelude.{◌≡◌, ◌^◌};
ghost use Rattle.life_cells.specs.Boxes.{IsCellInRange, IsBoxInRange};
ghost use Rattle.lane_clear.specs.Frames.{moved_bounds, moved_frame, farthest, IsFrameInRange};

use life_cells::{Bounds, Cell};
use recipe_hit::HitFrame;

/// Bounds where the hand is at this place.
fn moved_bounds(bounds: Bounds, at: Cell) -> Bounds
    requires bounds { IsBoxInRange farthest bounds }
    requires at { IsCellInRange farthest at }
    ensures { result ≡ moved_bounds at bounds }
{
    Bounds {
        left: bounds.left + at.x,
        top: bounds.top + at.y,
        right: bounds.right + at.x,
        bottom: bounds.bottom + at.y,
    }
}

/// A hit's frame where the hand is at this place: the lane is x + y more, the hit begins y quarters earlier, and the bounds are moved.
pub fn moved_frame(frame: HitFrame, at: Cell) -> HitFrame
    requires frame { IsFrameInRange farthest frame }
    requires at { IsCellInRange farthest at }
    ensures moved { result ≡ moved_frame at frame }
    ensures range { IsFrameInRange (2 ^ 54) result }
{
    HitFrame {
        lane: frame.lane + at.x + at.y,
        start: frame.start - at.y,
        bounds: moved_bounds(frame.bounds, at),
    }
}
