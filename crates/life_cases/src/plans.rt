//! Plans of books for targets.

use crate::books::checked;
use crate::texts::Texts;
use build_plan::{Event, Plan, PlanError, Target, plan};
use life_cells::NoMemory;
use life_rle::read_rle;
use life_steps::Steps;
use recipe_book::CheckedBook;
use std::alloc::{AllocError, Global};
use std::sync::ledger::Ledger;

/// The target that the text with a name says.
fn target_of<L: Ledger>(
    alloc: Global,
    texts: &Texts,
    name: &str,
    steps: &mut Steps<L>,
) -> Option<Target> {
    let text = texts.get(name)?;
    let pattern = read_rle(alloc, text).ok()?;
    Target::new(alloc, pattern.cells, steps).ok()
}

/// What a book's plan for a target is, or where planning stops: the place of the first hand and the shift back, and a line for each turn
/// and hit.
pub fn show_plan<L: Ledger>(
    alloc: Global,
    texts: &Texts,
    text: &[u8],
    words: &[String],
    report: &mut String,
    steps: &mut Steps<L>,
) -> Result<bool, NoMemory> {
    let [name] = words else {
        return Ok(false);
    };
    let Some(target) = target_of(alloc, texts, name.as_str(), steps) else {
        return Ok(false);
    };
    let Some(book) = checked(alloc, text, steps) else {
        return Ok(false);
    };
    show_planned(alloc, &book, &target, report)
}

/// The same, of a checked book.
fn show_planned(
    alloc: Global,
    book: &CheckedBook,
    target: &Target,
    report: &mut String,
) -> Result<bool, NoMemory> {
    match plan(alloc, book, target) {
        Ok(plan) => show_events(&plan, report),
        Err(PlanError::Memory) => Err(NoMemory),
        Err(stop) => {
            write!(report, "{stop:?}\n")?;
            Ok(true)
        }
    }
}

/// A turn or a hit.
fn show_event(event: &Event, report: &mut String) -> Result<(), AllocError> {
    match event {
        Event::Turn { turn, shift } => write!(report, "turn {turn} at {shift}\n"),
        Event::Hit { salvo, place, at } => {
            let (x, y) = (at.x, at.y);
            write!(report, "hit {salvo} lane {place} at {x} {y}\n")
        }
    }
}

/// The first hand, the shift back, and the events, a line each.
fn show_events(plan: &Plan, report: &mut String) -> Result<bool, NoMemory> {
    match plan.first_hand {
        Some(at) => write!(report, "hand {} {}\n", at.x, at.y)?,
        None => report.push_str("hand none\n")?,
    }
    write!(report, "back {} {}\n", plan.back.x, plan.back.y)?;
    for event in &plan.events {
        show_event(event, report)?;
    }
    Ok(true)
}
