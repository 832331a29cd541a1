//! What a planner has walked so far at the elbow.

ghost use Rattle.std.specs.Prelude.{◌≡◌, ◌++◌, ◌^◌, pos, take, length, OnOk};
ghost use Rattle.recipe_turn.specs.Checked.{raws};
ghost use Rattle.build_plan.specs.declared.event.Event.TheVariants.{Turn};
ghost use Rattle.build_plan.specs.TurnEvents.{moved_by, elbow_after, turn_events};
ghost use Rattle.build_plan.specs.Trials.{farewell_events, farewell_elbow};
ghost use Rattle.build_plan.specs.Walked.{IsNearEnd, AreWalked};

use crate::event::Event;
use crate::numbered::turn_at;
use book_parts::TurnEnd;
use elbow_graph::Elbow;
use life_cells::NoMemory;
use recipe_book::CheckedBook;

/// The events so far, and the elbow after them.
#[derive(Drop)]
pub(crate) struct Walk {
    pub(crate) elbow: Elbow,
    pub(crate) events: Vec<Event>,
}

/// Where a turn of this end moves the elbow; one that closes it moves it nowhere.
fn moved_by(end: TurnEnd, from: Elbow) -> Elbow
    requires { IsNearEnd (pos (2 ^ 27)) end from }
    ensures { result ≡ moved_by end from }
{
    match end {
        TurnEnd::Close => from,
        TurnEnd::Move { kind, shift } => Elbow {
            kind,
            shift: from.shift + shift,
        },
        TurnEnd::Emit { kind, shift, .. } => Elbow {
            kind,
            shift: from.shift + shift,
        },
    }
}

/// The turn with this number at the elbow.
fn turn_event(number: usize, elbow: Elbow) -> Event
    ensures { result ≡ Turn number elbow.shift }
{
    Event::Turn {
        turn: number,
        shift: elbow.shift,
    }
}

impl Walk {
    /// Adds turns of the book, by their numbers from 1 on, one after the other.
    pub(crate) fn push_turns(&mut self, book: &CheckedBook, list: &[usize]) -> Result<(), NoMemory>
        requires { AreWalked (raws book.now.turns) book.now.settings.span self.old.elbow list.now }
        ensures events { OnOk result (self.new.events.items ≡ self.old.events.items ++ turn_events (raws book.now.turns) self.old.elbow list.now) }
        ensures elbow { OnOk result (self.new.elbow ≡ elbow_after (raws book.now.turns) self.old.elbow list.now) }
    {
        let _ = book.settings();
        let turns = book.turns();
        for number in list {
            let turn = turn_at(turns, *number);
            self.events.push(turn_event(*number, self.elbow))?;
            self.elbow = moved_by(turn.end, self.elbow);
        }
        Ok(())
    }

    /// Adds what was walked after it, if anything was.
    pub(crate) fn go_on(&mut self, more: Option<Walk>) -> Result<(), NoMemory>
        ensures events { OnOk result (self.new.events.items ≡ self.old.events.items ++ farewell_events more) }
        ensures elbow { OnOk result (self.new.elbow ≡ farewell_elbow self.old.elbow more) }
    {
        let Some(more) = more else {
            return Ok(());
        };
        self.events.extend_from_slice(&more.events)?;
        self.elbow = more.elbow;
        Ok(())
    }

    /// How many events there are.
    pub(crate) fn len(&self) -> usize
        ensures { result ≡ length self.now.events.items }
    {
        self.events.len()
    }

    /// Back to an elbow and so many events: those after them are dropped.
    pub(crate) fn go_back(&mut self, elbow: Elbow, len: usize)
        ensures events { self.new.events.items ≡ take len self.old.events.items }
        ensures elbow { self.new.elbow ≡ elbow }
    {
        self.events.truncate(len);
        self.elbow = elbow;
    }
}
