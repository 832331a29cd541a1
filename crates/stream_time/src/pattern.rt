//! The pattern of a plan, cell for cell.

ghost use Rattle.std.specs.Prelude.{◌≡◌, ◌≤◌, ◌^◌, List, length, IfOk};
ghost use Rattle.life_plane.specs.Plane.{union, shift};
ghost use Rattle.life_cells.specs.Boxes.{IsInRange};
ghost use Rattle.life_cells.specs.Cells.{alive};
ghost use Rattle.life_cells.specs.Listed.{listed};
ghost use Rattle.book_parts.specs.Kinds.{kind_plane};
ghost use Rattle.book_parts.specs.declared.limits.TheConstants.{MOST_GLIDERS};
ghost use Rattle.event_times.specs.Events.{stream_of};
ghost use Rattle.plan_facts.specs.Happenings.{Happening, events_of};
ghost use Rattle.plan_facts.specs.State.{hand_plane, first_hand};
ghost use Rattle.stream_time.specs.InTime.{AreEarlyStarts};
ghost use Rattle.stream_time.specs.NearEvents.{AreNearEvents, IsNearPlace, IsNearHand, IsNearPlan};
ghost use Rattle.stream_time.specs.Laying.{AreStarted, laid};

use crate::gliders::push_turn;
use build_plan::numbered::turn_at;
use build_plan::{Event, Plan};
use life_cells::{Cell, CellSet, NoMemory};
use recipe_book::CheckedBook;
use std::alloc::Global;

/// The cells of the gliders of a plan's turns, which start in these generations.
fn stream_cells(
    alloc: Global,
    book: &CheckedBook,
    events: &[Event],
    starts: &[u64],
) -> Result<Vec<Cell>, NoMemory>
    requires near { AreNearEvents events.now }
    requires early { AreEarlyStarts starts.now }
    requires few { length starts.now ≤ MOST_GLIDERS }
    requires started { (happenings : List Happening) × AreStarted book.now events.now starts.now happenings }
    ensures { IfOk result (λ cells. (happenings : List Happening) → AreStarted book.now events.now starts.now happenings → listed cells.items ≡ stream_of book.now.settings (events_of happenings)) }
{
    let settings = book.settings();
    let mut cells = Vec::new(alloc);
    let mut started = 0;
    for event in events {
        match *event {
            Event::Turn { turn, shift } => {
                let turn = turn_at(book.turns(), turn);
                push_turn(&mut cells, settings, turn, shift, starts[started])?;
                started += 1;
            }
            Event::Hit { .. } => {}
        }
    }
    Ok(cells)
}

/// The elbow that the stream begins at.
fn start_elbow(book: &CheckedBook) -> &CellSet
    ensures { alive result.now ≡ kind_plane book.now.kinds book.now.start }
{
    let _ = book.settings();
    let kinds = book.kinds();
    let kind = &kinds[book.start() - 1];
    &kind.cells
}

/// Cells that are gliders, as a set.
fn gliders_of(alloc: Global, cells: &[Cell]) -> Result<CellSet, NoMemory>
    ensures { IfOk result (λ set. alive set ≡ listed cells.now) }
{
    CellSet::from_cells(alloc, cells)
}

/// The hand at this place.
fn hand_at(book: &CheckedBook, place: Cell) -> Result<CellSet, NoMemory>
    requires { IsNearPlace place }
    ensures { IfOk result (λ set. alive set ≡ shift place.x place.y (alive book.now.hand)) }
{
    let _ = book.settings();
    book.hand().shift(place.x, place.y)
}

/// The gliders and the first hand, if there is one.
fn with_hand(book: &CheckedBook, place: Option<Cell>, gliders: CellSet) -> Result<CellSet, NoMemory>
    requires { IsNearHand place }
    ensures { IfOk result (λ set. alive set ≡ union (hand_plane (alive book.now.hand) (first_hand place)) (alive gliders)) }
{
    match place {
        None => Ok(gliders),
        Some(place) => hand_at(book, place)?.union(&gliders),
    }
}

/// The pattern of a plan whose turns start in these generations, at the target's own place: the start kind, the first hand, if there is one,
/// and each turn's gliders, all shifted back.
pub(crate) fn pattern_of(
    alloc: Global,
    book: &CheckedBook,
    plan: &Plan,
    starts: &[u64],
) -> Result<CellSet, NoMemory>
    requires near { IsNearPlan plan.now }
    requires early { AreEarlyStarts starts.now }
    requires few { length starts.now ≤ MOST_GLIDERS }
    requires started { (happenings : List Happening) × AreStarted book.now plan.now.events.items starts.now happenings }
    ensures cells { IfOk result (λ set. (happenings : List Happening) → AreStarted book.now plan.now.events.items starts.now happenings → alive set ≡ shift plan.now.back.x plan.now.back.y (laid book.now plan.now happenings)) }
    ensures range { IfOk result (λ set. IsInRange (2 ^ 58) (alive set)) }
{
    let _ = book.settings();
    let cells = stream_cells(alloc, book, &plan.events, starts)?;
    let gliders = gliders_of(alloc, &cells)?;
    let with_hand = with_hand(book, plan.first_hand, gliders)?;
    let whole = start_elbow(book).union(&with_hand)?;
    whole.shift(plan.back.x, plan.back.y)
}
