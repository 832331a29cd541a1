//! Laws of refusals: what is valid has none, and what isn't has one. So a refusal comes exactly where its definition says, want of
//! memory aside.

ghost use Rattle.std.specs.Prelude.{◌≡◌, ◌≢◌, List};
ghost use Rattle.life_plane.specs.Plane.{Plane};
ghost use Rattle.book_parts.specs.declared.settings.Settings.{Settings};
ghost use Rattle.book_parts.specs.declared.kind.RawKind.{RawKind};
ghost use Rattle.book_parts.specs.declared.turn.RawTurn.{RawTurn};
ghost use Rattle.recipe_turn.specs.Checked.{AreValid};
ghost use Rattle.recipe_turn.specs.Turn.{IsSound};
ghost use Rattle.recipe_turn.specs.Refusals.{KindsAreRefused, TurnIsRefused};

use crate::refusal::{KindsError, TurnRefusal};

/// A sound turn has no refusal.
pub fn sound_turns_have_no_refusal()
    ensures { (settings : Settings) (kind next : Plane) (turn : RawTurn) (e : TurnRefusal) → IsSound settings kind next turn → TurnIsRefused settings kind next turn e → e ≡ TurnRefusal.Memory }
{}

/// A turn has one refusal at most.
pub fn turns_have_one_refusal()
    ensures { (settings : Settings) (kind next : Plane) (turn : RawTurn) (e f : TurnRefusal) → TurnIsRefused settings kind next turn e → TurnIsRefused settings kind next turn f
        → e ≢ TurnRefusal.Memory → f ≢ TurnRefusal.Memory → e ≡ f }
{}

/// Valid kinds have no refusal.
pub fn valid_kinds_have_no_refusal()
    ensures { (settings : Settings) (kinds : List RawKind) (e : KindsError) → AreValid settings kinds → KindsAreRefused settings kinds e → e ≡ KindsError.Memory }
{}

/// Kinds have one refusal at most.
pub fn kinds_have_one_refusal()
    ensures { (settings : Settings) (kinds : List RawKind) (e f : KindsError) → KindsAreRefused settings kinds e → KindsAreRefused settings kinds f
        → e ≢ KindsError.Memory → f ≢ KindsError.Memory → e ≡ f }
{}
