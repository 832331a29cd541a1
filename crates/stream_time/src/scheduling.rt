//! When the turns of a plan start, and when its hits end.

ghost use Rattle.std.specs.Prelude.{◌≤◌, length, IfOk, OnOk};
ghost use Rattle.life_cells.specs.Cells.{alive};
ghost use Rattle.book_parts.specs.declared.limits.TheConstants.{MOST_GLIDERS};
ghost use Rattle.event_times.specs.Clock.{IsKept};
ghost use Rattle.event_times.specs.Early.{IsEarly};
ghost use Rattle.build_plan.specs.Happenings.{IsOfBook};
ghost use Rattle.build_plan.specs.Plan.{IsPlan};
ghost use Rattle.stream_time.specs.NearEvents.{IsNearEvent};
ghost use Rattle.stream_time.specs.Adding.{GliderComes, EventIsAdded};
ghost use Rattle.stream_time.specs.InTime.{AreEarlyStarts, IsSchedule};

use crate::entries::hit_at;
use crate::times::Schedule;
use build_plan::laws::{plans_are_of_their_book, plans_construct};
use build_plan::numbered::turn_at;
use build_plan::{Event, Plan, Target};
use event_times::{Clock, add_hit, add_turn};
use lane_clear::moved_frame;
use life_cells::NoMemory;
use recipe_book::CheckedBook;
use std::alloc::Global;

/// Adds one more event of a plan: a turn, started as early as it may, or the hit of the glider thrown last.
fn add_event(clock: &mut Clock, book: &CheckedBook, event: Event) -> Result<(), NoMemory>
    requires own { IsOfBook book.now event }
    requires near { IsNearEvent event }
    requires kept { IsKept clock.old }
    requires early { IsEarly (length clock.old.starts.items) clock.old }
    requires few { length clock.old.starts.items ≤ MOST_GLIDERS }
    requires comes { GliderComes book.now event clock.old.sent }
    ensures { OnOk result (EventIsAdded book.now event clock.old clock.new) }
{
    let reach = book.settings().reach;
    match event {
        Event::Turn { turn, shift } => {
            add_turn(clock, reach, turn_at(book.turns(), turn), shift)
        }
        Event::Hit { salvo, place, at } => {
            let hit = hit_at(book.salvos(), salvo, place);
            add_hit(clock, moved_frame(hit.frame, at), hit.generations)
        }
    }
}

/// When the turns of a plan start, each in order as soon as it may (docs/DEFINITIONS.md, "Turns and hits in time"), with any number of
/// gliders in flight; when its hits end; and the number of generations, at which all is over. The plan is the book's for the target.
///
/// # Errors
/// `NoMemory` for want of memory.
pub fn schedule(
    alloc: Global,
    book: &CheckedBook,
    target: &Target,
    plan: &Plan,
) -> Result<Schedule, NoMemory>
    requires { IsPlan book.now (alive target.now) plan.now }
    ensures schedule { IfOk result (λ schedule. IsSchedule book.now plan.now schedule) }
    ensures early { IfOk result (λ schedule. AreEarlyStarts schedule.starts.items) }
    ensures few { IfOk result (λ schedule. length schedule.starts.items ≤ MOST_GLIDERS) }
{
    // These say that a plan is a construction, of its book's turns and hits; they do nothing.
    plans_construct();
    plans_are_of_their_book();
    let _ = book.settings();
    let _ = target.cells();
    let mut clock = Clock::new(alloc);
    for event in &plan.events {
        add_event(&mut clock, book, *event)?;
    }
    let n = clock.number();
    let hit_ends = clock.hit_ends(alloc)?;
    Ok(Schedule {
        starts: clock.starts,
        hit_ends,
        n,
    })
}
