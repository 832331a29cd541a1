//! Laws of plans and of stops: a book has at most one plan for a target, or one stop, and not both; what a plan's events stand for, and where
//! it has hits.

ghost use Rattle.std.specs.Prelude.{◌≡◌, ◌≢◌, neg_ℤ, List};
ghost use Rattle.std.specs.List.{AllByRecursion};
ghost use Rattle.life_plane.specs.Plane.{Plane, shift};
ghost use Rattle.life_cells.specs.Cells.{alive};
ghost use Rattle.life_islands.specs.Islands.{AreIslands};
ghost use Rattle.life_islands.specs.declared.island.Island.{Island};
ghost use Rattle.recipe_book.specs.Checked.{CheckedEntries, IsCheckedBook};
ghost use Rattle.plan_facts.specs.Happenings.{Happening};
ghost use Rattle.plan_facts.specs.Facts.{IsConstruction};
ghost use Rattle.build_plan.specs.Happenings.{AllStandFor, IsOfBook};
ghost use Rattle.build_plan.specs.declared.event.Plan.{Plan as Planned};
ghost use Rattle.build_plan.specs.declared.error.PlanError.{PlanError as Stop};
ghost use Rattle.build_plan.specs.Plan.{IsPlan, SamePlan};
ghost use Rattle.build_plan.specs.PlanHits.{HitsForIslands};
ghost use Rattle.build_plan.specs.Stops.{PlanStops};

use crate::error::PlanError;
use elbow_route::laws::least_lists_are_one;
use hand_route::{farewells_are_one, hand_lists_are_one};

/// For a target a book has at most one plan.
pub fn plans_are_one()
    ensures { (book : CheckedEntries) (target : Plane) (a b : Planned) → IsPlan book target a → IsPlan book target b → SamePlan a b }
{
    // These say that least lists are one; they do nothing.
    least_lists_are_one();
    hand_lists_are_one();
    farewells_are_one();
}

/// Where a book has a plan for a target, planning doesn't stop, want of memory aside.
pub fn plans_have_no_stop()
    ensures { (book : CheckedEntries) (target : Plane) (plan : Planned) (stop : Stop) → IsPlan book target plan → PlanStops book target stop → stop ≡ PlanError.Memory }
{
    // These say that least lists are one; they do nothing.
    least_lists_are_one();
    hand_lists_are_one();
    farewells_are_one();
}

/// For a target planning stops in one way at most, want of memory aside.
pub fn stops_are_one()
    ensures { (book : CheckedEntries) (target : Plane) (e f : Stop) → PlanStops book target e → PlanStops book target f → e ≢ PlanError.Memory → f ≢ PlanError.Memory → e ≡ f }
{
    // These say that least lists are one; they do nothing.
    least_lists_are_one();
    hand_lists_are_one();
    farewells_are_one();
}

/// What a plan's events stand for, at whatever times, is a construction of the target, away from its own place by the plan's shift back.
pub fn plans_construct()
    ensures { (book : CheckedEntries) → IsCheckedBook book → (target : Plane) (plan : Planned) → IsPlan book target plan → (happenings : List Happening) → AllStandFor book plan.events.items happenings →
        IsConstruction book.settings book.kinds book.start (alive book.hand) plan.first_hand happenings (shift (neg_ℤ plan.back.x) (neg_ℤ plan.back.y) target) }
{}

/// Each event of a plan is one of the book's: numbers of turns and salvos are those of the accepted ones, and places those of a salvo's hits.
pub fn plans_are_of_their_book()
    ensures { (book : CheckedEntries) (target : Plane) (plan : Planned) → IsPlan book target plan → AllByRecursion (IsOfBook book) plan.events.items }
{}

/// A plan has hits, and a first hand, exactly where the target has an island.
pub fn plans_hit_where_islands_are()
    ensures { (book : CheckedEntries) → IsCheckedBook book → (target : Plane) (plan : Planned) → IsPlan book target plan →
        (islands : List Island) → AreIslands target islands → HitsForIslands islands plan }
{}
