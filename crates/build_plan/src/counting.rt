//! How many gliders a stream has.

ghost use Rattle.std.specs.Prelude.{◌≡◌, ◌+◌, IfOk};
ghost use Rattle.recipe_turn.specs.Checked.{raws};
ghost use Rattle.build_plan.specs.Numbers.{item_of};
ghost use Rattle.build_plan.specs.TurnEvents.{delays_of, gliders_of};

use crate::event::Event;
use life_cells::NoMemory;
use recipe_turn::CheckedTurn;

/// The gliders of the turn with this number, counted from 1; none where there is no such turn.
fn delays_of(turns: &[CheckedTurn], number: usize) -> u64
    ensures { result ≡ delays_of (item_of (raws turns.now) number) }
{
    let Some(place) = number.checked_sub(1) else {
        return 0;
    };
    match turns.get(place) {
        Some(turn) => turn.raw().delays.items().len() as u64,
        None => 0,
    }
}

/// A sum.
///
/// # Errors
///
/// [`NoMemory`] where it passes 2^64: there is no memory for so many events.
pub(crate) fn sum(first: u64, second: u64) -> Result<u64, NoMemory>
    ensures { IfOk result (λ sum. sum ≡ first + second) }
{
    first.checked_add(second).ok_or(NoMemory)
}

/// The stream gliders of events: one for each delay of each turn.
///
/// # Errors
///
/// [`NoMemory`] where they are more than 2^64: there is no memory for so many events.
pub(crate) fn count_gliders(turns: &[CheckedTurn], events: &[Event]) -> Result<u64, NoMemory>
    ensures { IfOk result (λ count. count ≡ gliders_of (raws turns.now) events.now) }
{
    let mut count: u64 = 0;
    for event in events {
        let more = match event {
            Event::Turn { turn, .. } => delays_of(turns, *turn),
            Event::Hit { .. } => 0,
        };
        count = sum(count, more)?;
    }
    Ok(count)
}
