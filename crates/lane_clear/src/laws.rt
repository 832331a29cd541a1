//! What a clear hit comes to.

ghost use Rattle.std.specs.Prelude.{◌≡◌, ℕ, ◌≤◌};
ghost use Rattle.life_plane.specs.Plane.{Plane, run, shift};
ghost use Rattle.life_plane.specs.Apart.{Apart};
ghost use Rattle.life_scene.specs.Hits as scene;
ghost use Rattle.life_cells.specs.Cells.{alive};
ghost use Rattle.life_cells.specs.declared.cell.Cell.{Cell};
ghost use Rattle.book_parts.specs.declared.settings.Settings.{Settings};
ghost use Rattle.recipe_hit.specs.declared.frame.HitFrame.{HitFrame};
ghost use Rattle.recipe_hit.specs.declared.frame.Hit.{Hit};
ghost use Rattle.recipe_hit.specs.Strike.{IsHit};
ghost use Rattle.recipe_hit.specs.SceneBoxes.{as_box};
ghost use Rattle.lane_clear.specs.Frames.{moved_bounds, moved_frame};
ghost use Rattle.lane_clear.specs.Clear.{IsClear};
ghost use Rattle.lane_clear.specs.Refusals.{IsRefused};
ghost use Rattle.lane_clear.specs.StaysApart.{StaysApart};
ghost use Rattle.lane_clear.specs.declared.refusal.ClearRefusal.{ClearRefusal};

/// A hit of the book moved to the hand's place is a hit there: of what is struck, moved, on the lane and with the bounds of the moved frame.
pub fn hits_move_with_the_hand()
    ensures { (place : Cell) (struck : Plane) (hit : Hit) (h : IsHit struck hit.frame.lane hit) →
        scene.IsHit (shift place.x place.y struck) (as_box (moved_bounds place h.box)) (moved_frame place hit.frame).lane (moved_frame place hit.frame).start hit.generations
        (shift place.x place.y (alive hit.after)) (as_box (moved_frame place hit.frame).bounds) }
{}

/// A clear hit's bounds, and its glider up to where the hit begins, stay apart from what is built.
pub fn clear_hits_stay_apart()
    ensures { (settings : Settings) (built : Plane) (frame : HitFrame) → IsClear settings built frame → StaysApart built frame }
{}

/// Each generation of a clear hit stays apart from what is built.
pub fn generations_stay_apart()
    ensures { (settings : Settings) (built : Plane) (place : Cell) (struck : Plane) (hit : Hit) → IsHit struck hit.frame.lane hit → IsClear settings built (moved_frame place hit.frame) →
        (t : ℕ) → t ≤ hit.generations → Apart built (run t (scene.hit_start (shift place.x place.y struck) (moved_frame place hit.frame).lane (moved_frame place hit.frame).start)) }
{}

/// A hit that isn't clear has one refusal at most.
pub fn one_refusal()
    ensures { (settings : Settings) (built : Plane) (frame : HitFrame) (e f : ClearRefusal) → IsRefused settings built frame e → IsRefused settings built frame f → e ≡ f }
{}

/// A clear hit has none.
pub fn clear_hits_have_no_refusal()
    ensures { (settings : Settings) (built : Plane) (frame : HitFrame) (e : ClearRefusal) → IsClear settings built frame → IsRefused settings built frame e → ⊥ }
{}
