//! Laws of hits and salvos: a lane has one hit, the same from further back; what is in order has no refusal, and what isn't has one. So a
//! refusal comes exactly where its definition says, want of memory aside.

ghost use Rattle.std.specs.Prelude.{◌≡◌, ◌≢◌, ℕ, ℤ, List};
ghost use Rattle.life_plane.specs.Plane.{Plane, IsStill};
ghost use Rattle.recipe_hit.specs.declared.frame.Hit.{Hit};
ghost use Rattle.recipe_hit.specs.Strike.{IsHit};
ghost use Rattle.recipe_hit.specs.FurtherBack.{IsHitFrom};
ghost use Rattle.recipe_hit.specs.Hands.{IsHand};
ghost use Rattle.recipe_hit.specs.Refusals.{HitIsRefused, HandIsRefused};
ghost use Rattle.book_parts.specs.declared.salvo.RawSalvo.{RawSalvo};
ghost use Rattle.recipe_hit.specs.Sound.{AreHits, IsSound};
ghost use Rattle.recipe_hit.specs.SalvoRefusals.{SalvoIsRefused};

use crate::refusal::{HandRefusal, HitRefusal, SalvoRefusal};

/// A lane has one hit at most.
pub fn lanes_have_one_hit()
    ensures { (struck : Plane) (lane : ℤ) (a b : Hit) → IsHit struck lane a → IsHit struck lane b → a ≡ b }
{}

/// Where there is a hit it is not refused.
pub fn hits_have_no_refusal()
    ensures { (struck : Plane) (lane : ℤ) (hit : Hit) (e : HitRefusal) → IsHit struck lane hit → HitIsRefused struck lane e → e ≡ HitRefusal.Memory }
{}

/// A hit has one refusal at most.
pub fn hits_have_one_refusal()
    ensures { (struck : Plane) (lane : ℤ) (e f : HitRefusal) → HitIsRefused struck lane e → HitIsRefused struck lane f → e ≢ HitRefusal.Memory → f ≢ HitRefusal.Memory → e ≡ f }
{}

/// The hit of a still life is the same wherever on its lane the glider starts further back.
pub fn hits_are_the_same_from_further_back()
    ensures { (struck : Plane) (lane : ℤ) (hit : Hit) → IsStill struck → IsHit struck lane hit → (back : ℕ) → IsHitFrom back struck lane hit }
{}

/// A hand has no refusal.
pub fn hands_have_no_refusal()
    ensures { (s : Plane) (e : HandRefusal) → IsHand s → HandIsRefused s e → e ≡ HandRefusal.Memory }
{}

/// A set has one refusal as a hand at most.
pub fn hands_have_one_refusal()
    ensures { (s : Plane) (e f : HandRefusal) → HandIsRefused s e → HandIsRefused s f → e ≢ HandRefusal.Memory → f ≢ HandRefusal.Memory → e ≡ f }
{}

/// The lanes of a salvo have one list of hits at most.
pub fn salvos_have_one_list_of_hits()
    ensures { (start : Plane) (lanes : List ℤ) (hits others : List Hit) → AreHits start lanes hits → AreHits start lanes others → hits ≡ others }
{}

/// A sound salvo has no refusal.
pub fn sound_salvos_have_no_refusal()
    ensures { (hand : Plane) (salvo : RawSalvo) (hits : List Hit) (e : SalvoRefusal) → IsSound hand salvo hits → SalvoIsRefused hand salvo e → e ≡ SalvoRefusal.Memory }
{}

/// A salvo has one refusal at most.
pub fn salvos_have_one_refusal()
    ensures { (hand : Plane) (salvo : RawSalvo) (e f : SalvoRefusal) → SalvoIsRefused hand salvo e → SalvoIsRefused hand salvo f → e ≢ SalvoRefusal.Memory → f ≢ SalvoRefusal.Memory
        → e ≡ f }
{}
