//! The command `sample`.

ghost use Rattle.std.specs.Prelude.{◌≡◌, ℕ, ◌≤◌, IfOk, IfErr};
ghost use Rattle.life_plane.specs.Plane.{nothing};
ghost use Rattle.life_cells.specs.Cells.{alive};
ghost use Rattle.life_sample.specs.declared.limits.TheConstants.{MOST_COUNT, LEAST_GAP, GREATEST_GAP};
ghost use Rattle.book_parts.specs.Proper.{IsProperBook};
ghost use Rattle.build_plan.specs.Plan.{IsPlan};
ghost use Rattle.life_cli.specs.Compiled.{PlanRefuses};
ghost use Rattle.life_cli.specs.Sampled.{IsSummedUp, summing, sampling, sample};
ghost use Rattle.life_cli.specs.Stages.{EndWith, HasCause};

use crate::books::test_book;
use crate::compiling::{stopped, target_of};
use crate::status::Status;
use book_parts::RawBook;
use build_plan::{Plan, plan};
use life_cells::{CellSet, NoMemory};
use life_sample::{sample_book, sample_summary};
use life_steps::Steps;
use life_target::Target;
use recipe_book::CheckedBook;
use std::alloc::Global;
use std::sync::ledger::Ledger;
use stream_time::{last_delay, schedule};

/// The plan of a checked book for a target.
fn plan_for(alloc: Global, book: &CheckedBook, target: &Target) -> Result<Plan, Status>
    ensures ok { IfOk result (λ plan. IsPlan book.now (alive target.now) plan) }
    ensures err { IfErr result (λ status. HasCause ⊥ (PlanRefuses book.now (alive target.now)) status) }
{
    match plan(alloc, book, target) {
        Ok(plan) => Ok(plan),
        Err(stop) => Err(stopped(stop)),
    }
}

/// The summary of a plan for the empty target.
fn summary_of(
    alloc: Global,
    count: u32,
    book: &CheckedBook,
    target: &Target,
    plan: &Plan,
) -> Result<Vec<u8>, NoMemory>
    requires empty { alive target.now ≡ nothing }
    requires plan { IsPlan book.now nothing plan.now }
    ensures { IfOk result (λ bytes. IsSummedUp count book.now bytes.items) }
{
    let schedule = schedule(alloc, book, target, plan)?;
    let delay = last_delay(book, target, plan, &schedule);
    let mut text = Vec::new(alloc);
    sample_summary(alloc, count, delay, schedule.n, &mut text)?;
    Ok(text)
}

/// The text that sums up what a checked book builds for the empty target.
fn text_of_summary(
    alloc: Global,
    count: u32,
    book: &CheckedBook,
    target: &Target,
) -> Result<Vec<u8>, Status>
    requires { alive target.now ≡ nothing }
    ensures { (steps : ℕ) → EndWith (summing count book.now) ⊥ steps steps result }
{
    let plan = plan_for(alloc, book, target)?;
    let text = summary_of(alloc, count, book, target, &plan)?;
    Ok(text)
}

/// The text that sums up what a book builds for the empty target.
fn answer_of<L: Ledger>(
    alloc: Global,
    count: u32,
    book: RawBook,
    steps: &mut Steps<L>,
) -> Result<Vec<u8>, Status>
    requires { IsProperBook book }
    ensures ends { EndWith (sampling count book) ⊥ steps.old steps.new result }
    ensures steps { steps.old ≤ steps.new }
{
    let target = target_of(alloc, CellSet::empty(alloc), steps)?;
    let (book, _) = test_book(alloc, book, steps)?;
    text_of_summary(alloc, count, &book, &target)
}

/// The text that answers `sample` for these numbers.
pub(crate) fn sample<L: Ledger>(
    alloc: Global,
    count: u32,
    gap: u32,
    steps: &mut Steps<L>,
) -> Result<Vec<u8>, Status>
    requires some { 1 ≤ count }
    requires few { count ≤ MOST_COUNT }
    requires wide { LEAST_GAP ≤ gap }
    requires near { gap ≤ GREATEST_GAP }
    ensures ends { EndWith (sample count gap) ⊥ steps.old steps.new result }
    ensures steps { steps.old ≤ steps.new }
{
    let book = sample_book(alloc, count, gap)?;
    answer_of(alloc, count, book, steps)
}
