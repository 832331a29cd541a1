//! What a glider's cells tell of it. No code runs.

ghost use Rattle.std.specs.Prelude.{◌≡◌, ℤ};
ghost use Rattle.life_plane.specs.Tracks.{stream_glider};
ghost use Rattle.life_plane.specs.Salvo.{salvo_glider};

/// Two stream gliders that are the same plane have the same index.
pub fn stream_gliders_differ()
    ensures { (j k : ℤ) → stream_glider j ≡ stream_glider k → j ≡ k }
{}

/// Two salvo gliders that are the same plane are on the same lane, at the same index.
pub fn salvo_gliders_differ()
    ensures { (l j m k : ℤ) → salvo_glider l j ≡ salvo_glider m k → (l ≡ m) × (j ≡ k) }
{}
