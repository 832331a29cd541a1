//! Laws of targets: nothing is one, a target has no refusal, and what is none has one.

ghost use Rattle.std.specs.Prelude.{◌≡◌, ◌≢◌};
ghost use Rattle.life_plane.specs.Plane.{Plane, nothing};
ghost use Rattle.life_target.specs.Targets.{IsTarget, TargetIsRefused};
ghost use Rattle.life_target.specs.declared.refusal.TargetError.{TargetError};

use crate::refusal::TargetError;
use life_islands::laws::sets_have_one_list_of_islands;

/// Nothing is a target.
pub fn nothing_is_a_target()
    ensures { IsTarget nothing }
{}

/// A target has no refusal, want of memory aside.
pub fn targets_have_no_refusal()
    ensures { (s : Plane) (e : TargetError) → IsTarget s → TargetIsRefused s e → e ≡ TargetError.Memory }
{
    // This says that a set has one list of islands; it does nothing.
    sets_have_one_list_of_islands();
}

/// A set of cells has one refusal.
pub fn sets_have_one_refusal()
    ensures { (s : Plane) (e f : TargetError) → TargetIsRefused s e → TargetIsRefused s f → e ≢ TargetError.Memory → f ≢ TargetError.Memory → e ≡ f }
{
    // This says that a set has one list of islands; it does nothing.
    sets_have_one_list_of_islands();
}
