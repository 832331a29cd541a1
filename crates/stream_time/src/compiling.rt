//! What a book builds for a target.

ghost use Rattle.std.specs.Prelude.{◌≡◌, ◌^◌, IfOk, IfErr};
ghost use Rattle.life_plane.specs.Plane.{run};
ghost use Rattle.life_cells.specs.Boxes.{IsInRange};
ghost use Rattle.life_cells.specs.Cells.{alive};
ghost use Rattle.build_plan.specs.Plan.{IsPlan};
ghost use Rattle.build_plan.specs.Stops.{PlanStops};
ghost use Rattle.stream_time.specs.Built.{IsBuilt};

use crate::building::{Built, build};
use build_plan::{Plan, PlanError, Target, plan};
use life_cells::NoMemory;
use recipe_book::CheckedBook;
use std::alloc::Global;

/// The pattern of a plan; want of memory is a stop of planning.
fn build_or_stop(
    alloc: Global,
    book: &CheckedBook,
    target: &Target,
    plan: &Plan,
) -> Result<Built, PlanError>
    requires { IsPlan book.now (alive target.now) plan.now }
    ensures built { IfOk result (λ built. IsBuilt book.now (alive target.now) built) }
    ensures exact { IfOk result (λ built. run built.n (alive built.pattern) ≡ alive target.now) }
    ensures range { IfOk result (λ built. IsInRange (2 ^ 58) (alive built.pattern)) }
    ensures stop { IfErr result (λ stop. PlanStops book.now (alive target.now) stop) }
{
    match build(alloc, book, target, plan) {
        Ok(built) => Ok(built),
        Err(NoMemory) => Err(PlanError::Memory),
    }
}

/// The pattern and the number of generations by which a book builds a target (docs/DEFINITIONS.md): the start elbow, the hand, where the
/// target has a cell, and the gliders of the plan's turns, each started as soon as it may. In generation `n`, counted from 0, the pattern is
/// exactly the target, at the target's own place; nothing else is alive.
///
/// # Errors
/// Where the planner has no plan for the target, its stop: `NoRecipe` with the first island for which no salvo is usable; `NoClosing` with the
/// elbow that no list of turns closes; `StreamLong` with the number of gliders, where there are more than 2^20. `Memory` for want of memory, at
/// any time.
pub fn compile(alloc: Global, book: &CheckedBook, target: &Target) -> Result<Built, PlanError>
    ensures built { IfOk result (λ built. IsBuilt book.now (alive target.now) built) }
    ensures exact { IfOk result (λ built. run built.n (alive built.pattern) ≡ alive target.now) }
    ensures range { IfOk result (λ built. IsInRange (2 ^ 58) (alive built.pattern)) }
    ensures stop { IfErr result (λ stop. PlanStops book.now (alive target.now) stop) }
{
    let plan = plan(alloc, book, target)?;
    build_or_stop(alloc, book, target, &plan)
}
