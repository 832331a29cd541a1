//! Plans in the making.

ghost use Rattle.std.specs.Prelude.{◌≡◌, IfOk, IfSome, IfNone};
ghost use Rattle.build_plan.specs.Drafts.{AreLeft, IsFirstDraft, TakesOne, stand_at};
ghost use Rattle.build_plan.specs.Planners.{IsPlanner};
ghost use Rattle.build_plan.specs.Trials.{IsHandIn};
ghost use Rattle.build_plan.specs.Usable.{Taken, IsUsable};

use crate::counting::{count_gliders, sum};
use crate::finding::find;
use crate::planner::Planner;
use crate::trial::Trial;
use crate::walk::Walk;
use elbow_graph::Elbow;
use lane_clear::BuiltSet;
use life_cells::{Cell, NoMemory};
use life_islands::Island;
use recipe_book::CheckedBook;
use std::alloc::Global;

/// What was taken for the islands so far.
#[derive(Drop)]
pub(crate) struct Draft {
    /// The events, and the elbow after them.
    pub(crate) walk: Walk,
    /// How many stream gliders the events have.
    pub(crate) gliders: u64,
    /// Where the first hand stands, if there is one.
    pub(crate) first_hand: Option<Cell>,
    /// The place of the hand now, if there is one.
    pub(crate) hand: Option<Cell>,
    /// What is built.
    pub(crate) built: BuiltSet,
    /// The farewell of the hand that the last salvo leaves.
    pub(crate) farewell: Option<Walk>,
}

impl Draft {
    /// Nothing is taken yet: the elbow is the book's first, there is no hand, and nothing is built.
    pub(crate) fn start(alloc: Global, book: &CheckedBook) -> Self
        ensures { IsFirstDraft book.now result }
    {
        let elbow = Elbow {
            kind: book.start(),
            shift: 0,
        };
        Draft {
            walk: Walk {
                elbow,
                events: Vec::new(alloc),
            },
            gliders: 0,
            first_hand: None,
            hand: None,
            built: BuiltSet::empty(alloc),
            farewell: None,
        }
    }

    /// Takes a salvo for the first of the islands left: the first by number that is usable. None where no salvo is usable.
    pub(crate) fn take(
        self,
        alloc: Global,
        planner: &Planner,
        left: &[Island],
    ) -> Result<Option<Draft>, NoMemory>
        requires planner { IsPlanner planner.now }
        requires hand { IsHandIn planner.now.placing.room self.hand }
        requires left { AreLeft left.now }
        ensures some { IfOk result (λ next. IfSome next (TakesOne planner.now.book.now planner.now.placing.room self left.now)) }
        ensures none { IfOk result (λ next. IfNone next ((taken : Taken) → IsUsable planner.now.book.now planner.now.placing.room (stand_at self left.now) taken → ⊥)) }
    {
        let book = planner.book;
        let _ = book.settings();
        let mut walk = self.walk;
        let before = walk.len();
        let Some(trial) = find(alloc, planner, &self.built, self.hand, left, &mut walk)? else {
            return Ok(None);
        };
        let more = count_gliders(book.turns(), &walk.events[before..])?;
        let gliders = sum(self.gliders, more)?;
        let built = self.built.with(&left[0].cells)?;
        Ok(Some(Draft {
            walk,
            gliders,
            first_hand: self.first_hand.or(Some(trial.at)),
            hand: trial.hand,
            built,
            farewell: trial.farewell,
        }))
    }
}
