//! The command `compile`.

ghost use Rattle.std.specs.Prelude.{◌≡◌, ◌≢◌, ℕ, ◌+◌, ◌≤◌, ◌^◌, IfOk, IfErr};
ghost use Rattle.life_plane.specs.Plane.{Plane, run};
ghost use Rattle.life_cells.specs.Cells.{alive};
ghost use Rattle.life_cells.specs.Boxes.{IsInRange};
ghost use Rattle.life_target.specs.Targets.{IsTarget};
ghost use Rattle.life_io.specs.Counts.{IsLaterCount, Rose};
ghost use Rattle.life_io.specs.Texts.{Holds};
ghost use Rattle.book_parts.specs.Proper.{IsProperBook};
ghost use Rattle.recipe_book.specs.Checked.{CheckedEntries};
ghost use Rattle.build_plan.specs.Stops.{PlanStops};
ghost use Rattle.stream_time.specs.Built.{IsBuilt};
ghost use Rattle.life_cli.specs.Stages.{HasCause, EndWith};
ghost use Rattle.life_cli.specs.Compiled.{TargetRefuses, PlanRefuses, planning, building, compile};

use crate::books::test_book;
use crate::inputs::{fetch_book, fetch_pattern};
use crate::status::{Status, Which};
use crate::writing::text_of_built;
use book_parts::RawBook;
use build_plan::PlanError;
use life_cells::CellSet;
use life_io::Depot;
use life_steps::Steps;
use life_target::{Target, TargetError};
use recipe_book::CheckedBook;
use std::alloc::Global;
use std::sync::ledger::Ledger;
use stream_time::{Built, compile as build};

/// Refuses a set of cells that is no target.
pub(crate) fn target_of<L: Ledger>(
    alloc: Global,
    cells: CellSet,
    steps: &mut Steps<L>,
) -> Result<Target, Status>
    requires { IsInRange (2 ^ 40) (alive cells) }
    ensures same { IfOk result (λ target. target ≡ cells) }
    ensures target { IfOk result (λ target. IsTarget (alive target)) }
    ensures err { IfErr result (λ status. HasCause ⊥ (TargetRefuses (alive cells)) status) }
    ensures least { steps.old ≤ steps.new }
    ensures most { steps.new ≤ steps.old + 1 }
{
    match Target::new(alloc, cells, steps) {
        Ok(target) => Ok(target),
        Err((_, TargetError::Memory)) => Err(Status::Memory),
        Err((_, refusal)) => Err(Status::BadTarget(refusal)),
    }
}

/// The status of a stop of planning.
pub(crate) fn stopped(stop: PlanError) -> Status
    ensures { (book : CheckedEntries) (target : Plane) → PlanStops book target stop → HasCause ⊥ (PlanRefuses book target) result }
{
    match stop {
        PlanError::Memory => Status::Memory,
        PlanError::StreamLong { count } => Status::StreamLong { count },
        PlanError::NoRecipe { island, at } => Status::NoPlan(PlanError::NoRecipe { island, at }),
        PlanError::NoClosing { kind, shift } => {
            Status::NoPlan(PlanError::NoClosing { kind, shift })
        }
    }
}

/// What a checked book builds for a target.
fn plan(alloc: Global, book: &CheckedBook, target: &Target) -> Result<Built, Status>
    ensures ok { IfOk result (λ built. IsBuilt book.now (alive target.now) built) }
    ensures range { IfOk result (λ built. IsInRange (2 ^ 58) (alive built.pattern)) }
    ensures exact { IfOk result (λ built. run built.n (alive built.pattern) ≡ alive target.now) }
    ensures err { IfErr result (λ status. HasCause ⊥ (PlanRefuses book.now (alive target.now)) status) }
{
    match build(alloc, book, target) {
        Ok(built) => Ok(built),
        Err(stop) => Err(stopped(stop)),
    }
}

/// The text of what a checked book builds for a target.
fn text_of_plan(alloc: Global, book: &CheckedBook, target: &Target) -> Result<Vec<u8>, Status>
    ensures { (count : ℕ) → EndWith (planning book.now (alive target.now)) ⊥ count count result }
{
    let built = plan(alloc, book, target)?;
    let text = text_of_built(alloc, built)?;
    Ok(text)
}

/// The text that answers `compile` for a book and cells that were read.
fn answer_of<L: Ledger>(
    alloc: Global,
    book: RawBook,
    cells: CellSet,
    steps: &mut Steps<L>,
) -> Result<Vec<u8>, Status>
    requires book { IsProperBook book }
    requires range { IsInRange (2 ^ 40) (alive cells) }
    ensures ends { EndWith (building book (alive cells)) ⊥ steps.old steps.new result }
    ensures steps { steps.old ≤ steps.new }
{
    let target = target_of(alloc, cells, steps)?;
    let (book, _) = test_book(alloc, book, steps)?;
    text_of_plan(alloc, &book, &target)
}

/// The text that answers `compile` for the texts of these names.
pub(crate) fn compile<D: Depot, L: Ledger>(
    alloc: Global,
    book_name: &str,
    target_name: &str,
    depot: &mut D,
    steps: &mut Steps<L>,
) -> Result<Vec<u8>, Status>
    ensures ends { EndWith (compile (D.texts depot.old) book_name.now target_name.now) (Rose (D.faults depot.old) (D.faults depot.new)) steps.old steps.new result }
    ensures steps { steps.old ≤ steps.new }
    ensures texts_stay { D.texts depot.new ≡ D.texts depot.old }
    ensures count { IsLaterCount (D.faults depot.old) (D.faults depot.new) }
    ensures no_fault { result ≢ Err Status.ReadFault → D.faults depot.new ≡ D.faults depot.old }
    ensures quiet_stays { D.quiet depot.old → D.quiet depot.new }
    ensures quiet_serves { D.quiet depot.old → Holds (D.texts depot.old) book_name.now → Holds (D.texts depot.old) target_name.now → result ≢ Err Status.ReadFault }
{
    let book = fetch_book(alloc, depot, book_name)?;
    let target = fetch_pattern(alloc, depot, target_name, Which::Target)?;
    answer_of(alloc, book, target.cells, steps)
}
