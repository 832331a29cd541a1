//! How late the last turn of a plan is.

ghost use Rattle.std.specs.Prelude.{◌≡◌, ◌≢◌, ◌≤◌, ◌≤ℤ◌, ℕ, ℤ, pos, ◌+ℤ◌, ◌-ℤ◌, ◌*ℤ◌, ◌∷◌, ◌++◌, [], List};
ghost use Rattle.life_cells.specs.Cells.{alive};
ghost use Rattle.book_parts.specs.Limits.{AreProper};
ghost use Rattle.event_times.specs.Early.{IsNearShift, latest_end};
ghost use Rattle.build_plan.specs.Plan.{IsPlan};
ghost use Rattle.build_plan.specs.declared.event.Event.TheVariants as event;
ghost use Rattle.build_plan.specs.declared.event.Event.{Event};
ghost use Rattle.stream_time.specs.InTime.{AreEarlyStarts, IsSchedule};
ghost use Rattle.stream_time.specs.LastDelay.{IsLastDelay, EndInTurn};

use crate::times::Schedule;
use book_parts::Settings;
use build_plan::laws::plans_construct;
use build_plan::{Event, Plan, Target};
use recipe_book::CheckedBook;

/// The shift before the turn that comes last.
fn last_shift(events: &[Event]) -> i64
    requires { EndInTurn events.now }
    ensures { (before : List Event) (number : ℕ) (shift : ℤ) → events.now ≡ before ++ event.Turn number shift ∷ [] → result ≡ shift }
{
    match events[events.len() - 1] {
        Event::Turn { shift, .. } => shift,
        Event::Hit { .. } => unreachable!(),
    }
}

/// The last of the starts.
fn last_start(starts: &[u64]) -> u64
    requires { starts.now ≢ [] }
    ensures { (before : List ℕ) (start : ℕ) → starts.now ≡ before ++ start ∷ [] → result ≡ start }
{
    starts[starts.len() - 1]
}

/// How late the first glider of a turn is that starts then at this shift.
fn delay_at(settings: &Settings, start: u64, shift: i64) -> u64
    requires settings { AreProper settings.now }
    requires early { start ≤ latest_end }
    requires near { IsNearShift shift }
    requires passed { (pos 4 *ℤ shift) ≤ℤ pos start }
    ensures { pos result ≡ (pos start +ℤ settings.now.approach) -ℤ pos 4 *ℤ shift }
{
    (start as i64 + settings.approach - 4 * shift) as u64
}

/// How late the first glider of a plan's last turn is, in generations: in generation 0 it is the stream's glider whose index is the
/// negative of this. The plan is the book's for the target, and the schedule is the plan's. It takes no memory.
pub fn last_delay(book: &CheckedBook, target: &Target, plan: &Plan, schedule: &Schedule) -> u64
    requires plan { IsPlan book.now (alive target.now) plan.now }
    requires schedule { IsSchedule book.now plan.now schedule.now }
    requires early { AreEarlyStarts schedule.now.starts.items }
    ensures { (is : IsSchedule book.now plan.now schedule.now) → IsLastDelay book.now.settings is.happenings result }
{
    // This says that a plan is a construction; it does nothing.
    plans_construct();
    let settings = book.settings();
    let _ = target.cells();
    let shift = last_shift(&plan.events);
    let start = last_start(&schedule.starts);
    delay_at(settings, start, shift)
}
