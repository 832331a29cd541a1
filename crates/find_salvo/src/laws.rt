//! Laws of what gliders leave.

ghost use Rattle.std.specs.Prelude.{◌≡◌, ℕ, ℤ, List};
ghost use Rattle.life_plane.specs.Plane.{Plane};
ghost use Rattle.recipe_hit.specs.Sound.{IsSoundSalvo};
ghost use Rattle.find_salvo.specs.Outcomes.{IsOutcomeOf};
ghost use Rattle.find_salvo.specs.Salvos.{IsSalvoOutcome, salvo_of};
ghost use Rattle.find_salvo.specs.declared.outcome.Outcome.{Outcome};

/// What is left has one outcome at most.
pub fn what_is_left_has_one_outcome()
    ensures { (hand left : Plane) (a b : Outcome) → IsOutcomeOf hand left a → IsOutcomeOf hand left b → a ≡ b }
{}

/// A list of lanes has one outcome at most.
pub fn lanes_have_one_outcome()
    ensures { (hand : Plane) (lanes : List ℤ) (a b : Outcome) → IsSalvoOutcome hand lanes a → IsSalvoOutcome hand lanes b → a ≡ b }
{}

/// A salvo that states the outcome of its lanes is sound.
pub fn found_salvos_are_sound()
    ensures { (hand : Plane) (name : List ℕ) (lanes : List ℤ) (outcome : Outcome) → IsSalvoOutcome hand lanes outcome → IsSoundSalvo hand (salvo_of name lanes outcome) }
{}
