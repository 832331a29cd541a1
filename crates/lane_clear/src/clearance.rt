//! Clearance of a hit.

ghost use Rattle.std.specs.Prelude.{◌≡◌, ◌↔◌, ◌^◌, ◌-ℤ◌, IsTrue, IfOk, IfErr};
ghost use Rattle.life_cells.specs.Cells.{alive};
ghost use Rattle.life_cells.specs.Boxes.{IsInRange, IsCellInRange, IsBoxInRange};
ghost use Rattle.book_parts.specs.Limits.{AreProper};
ghost use Rattle.lane_clear.specs.Frames.{moved_frame, farthest, IsFrameInRange};
ghost use Rattle.lane_clear.specs.Clear.{AreBeyond, IsClear};
ghost use Rattle.lane_clear.specs.declared.refusal.ClearRefusal.TheVariants.{Works};
ghost use Rattle.lane_clear.specs.Refusals.{IsRefused};

use crate::first_cells::{first_in_lane, first_near};
use crate::moved::moved_frame;
use crate::refusal::ClearRefusal;
use book_parts::Settings;
use life_cells::{Bounds, Cell, CellSet};
use recipe_hit::HitFrame;

/// How far the bounds of a hit are past the reach at least.
const BEYOND: i64 = 5;

/// The least u of bounds.
fn least_u(bounds: Bounds) -> i64
    requires { IsBoxInRange (2 ^ 54) bounds }
    ensures { result ≡ bounds.left -ℤ bounds.bottom }
{
    bounds.left - bounds.bottom
}

/// Whether the bounds of a hit are beyond the reach. It takes no memory.
pub fn are_beyond(settings: &Settings, bounds: Bounds) -> bool
    requires settings { AreProper settings.now }
    requires bounds { IsBoxInRange (2 ^ 54) bounds }
    ensures { IsTrue result ↔ AreBeyond settings.now bounds }
{
    least_u(bounds) >= settings.reach + BEYOND
}

/// Tests whether the bounds are beyond the reach.
fn test_reach(settings: &Settings, bounds: Bounds) -> Result<(), ClearRefusal>
    requires settings { AreProper settings.now }
    requires bounds { IsBoxInRange (2 ^ 54) bounds }
    ensures ok { IfOk result (λ _. AreBeyond settings.now bounds) }
    ensures err { IfErr result (λ e. (e ≡ Works (bounds.left -ℤ bounds.bottom)) × (AreBeyond settings.now bounds → ⊥)) }
{
    if !are_beyond(settings, bounds) {
        let u = least_u(bounds);
        return Err(ClearRefusal::Works { u });
    }
    Ok(())
}

/// Whether a hit of this frame is clear of what is built.
fn clear_there(settings: &Settings, built: &CellSet, frame: HitFrame) -> Result<(), ClearRefusal>
    requires settings { AreProper settings.now }
    requires built { IsInRange farthest (alive built.now) }
    requires frame { IsFrameInRange (2 ^ 54) frame }
    ensures ok { IfOk result (λ _. IsClear settings.now (alive built.now) frame) }
    ensures err { IfErr result (λ e. IsRefused settings.now (alive built.now) frame e) }
{
    test_reach(settings, frame.bounds)?;
    if let Some(cell) = first_near(built, frame.bounds) {
        return Err(ClearRefusal::NearBox { cell });
    }
    if let Some(cell) = first_in_lane(built, frame) {
        return Err(ClearRefusal::InLane { cell });
    }
    Ok(())
}

/// Whether a hit of this frame, with the hand at a place, is clear of what is built (docs/DEFINITIONS.md, "Clear"). It takes no memory.
///
/// # Errors
/// The first part that fails: `Works` with left less bottom of the moved bounds; `NearBox` with the first built cell within distance 2 of
/// them; `InLane` with the first built cell on the glider's lane and not ahead of where the hit begins.
pub fn clear_hit(
    settings: &Settings,
    built: &CellSet,
    frame: HitFrame,
    at: Cell,
) -> Result<(), ClearRefusal>
    requires settings { AreProper settings.now }
    requires built { IsInRange farthest (alive built.now) }
    requires frame { IsFrameInRange farthest frame }
    requires at { IsCellInRange farthest at }
    ensures ok { IfOk result (λ _. IsClear settings.now (alive built.now) (moved_frame at frame)) }
    ensures err { IfErr result (λ e. IsRefused settings.now (alive built.now) (moved_frame at frame) e) }
{
    clear_there(settings, built, moved_frame(frame, at))
}
