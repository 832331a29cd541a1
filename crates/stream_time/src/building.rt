//! What a book builds for a target.

ghost use Rattle.std.specs.Prelude.{◌≡◌, ◌^◌, IfOk};
ghost use Rattle.life_plane.specs.Plane.{run};
ghost use Rattle.life_cells.specs.Boxes.{IsInRange};
ghost use Rattle.life_cells.specs.Cells.{alive};
ghost use Rattle.build_plan.specs.Plan.{IsPlan};
ghost use Rattle.stream_time.specs.Built.{IsBuilt};

use crate::pattern::pattern_of;
use crate::scheduling::schedule;
use build_plan::laws::plans_construct;
use build_plan::{Plan, Target};
use life_cells::{CellSet, NoMemory};
use plan_facts::{chosen_times_are_valid, valid_constructions_build};
use recipe_book::CheckedBook;
use std::alloc::Global;

/// What a book builds for a target.
#[derive(Debug, Drop)]
pub struct Built {
    /// The pattern in generation 0: an elbow, at most one hand and gliders.
    pub pattern: CellSet,
    /// The generation in which the pattern is exactly the target.
    pub n: u64,
}

/// The pattern of a plan of the book for a target, and the number of its generations: in that generation, counted from 0, the pattern is
/// exactly the target.
///
/// # Errors
/// `NoMemory` for want of memory.
pub fn build(
    alloc: Global,
    book: &CheckedBook,
    target: &Target,
    plan: &Plan,
) -> Result<Built, NoMemory>
    requires { IsPlan book.now (alive target.now) plan.now }
    ensures built { IfOk result (λ built. IsBuilt book.now (alive target.now) built) }
    ensures exact { IfOk result (λ built. run built.n (alive built.pattern) ≡ alive target.now) }
    ensures range { IfOk result (λ built. IsInRange (2 ^ 58) (alive built.pattern)) }
{
    // These say that a plan is a construction, and that with chosen times it builds; they do nothing.
    plans_construct();
    chosen_times_are_valid();
    valid_constructions_build();
    let _ = book.settings();
    let _ = target.cells();
    let schedule = schedule(alloc, book, target, plan)?;
    let pattern = pattern_of(alloc, book, plan, &schedule.starts)?;
    Ok(Built {
        pattern,
        n: schedule.n,
    })
}
