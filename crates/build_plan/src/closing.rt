//! The end of a plan.

ghost use Rattle.std.specs.Prelude.{List, IfOk, IfErr};
ghost use Rattle.life_islands.specs.declared.island.Island.{Island};
ghost use Rattle.build_plan.specs.Drafts.{IsWholeDraft};
ghost use Rattle.build_plan.specs.Placing.{back_of};
ghost use Rattle.build_plan.specs.Plan.{IsPlanFor};
ghost use Rattle.build_plan.specs.Planners.{IsPlanner};
ghost use Rattle.build_plan.specs.Stops.{StopsFor};

use crate::counting::{count_gliders, sum};
use crate::draft::Draft;
use crate::error::PlanError;
use crate::event::Plan;
use crate::placing::back_of;
use crate::planner::Planner;
use crate::serving::list_to_close;
use book_parts::limits::MOST_GLIDERS;
use std::alloc::Global;

/// The plan of a draft in which all islands are built: the farewell of the hand that is left, and the turns that close the elbow.
///
/// # Errors
///
/// `NoClosing` where no list of turns closes the elbow; `StreamLong` where the stream has too many gliders with the farewell and the turns
/// that close.
pub(crate) fn close(alloc: Global, planner: &Planner, draft: Draft) -> Result<Plan, PlanError>
    requires { IsPlanner planner.now }
    ensures plan { (islands : List Island) → IsWholeDraft planner.now.book.now planner.now.placing.room islands draft → IfOk result (IsPlanFor planner.now.book.now planner.now.placing islands) }
    ensures stop { (islands : List Island) → IsWholeDraft planner.now.book.now planner.now.placing.room islands draft → IfErr result (StopsFor planner.now.book.now planner.now.placing islands) }
{
    let book = planner.book;
    let mut walk = draft.walk;
    let before = walk.len();
    walk.go_on(draft.farewell)?;
    let Some(list) = list_to_close(alloc, book, planner.graph, walk.elbow)? else {
        return Err(PlanError::NoClosing {
            kind: walk.elbow.kind,
            shift: walk.elbow.shift,
        });
    };
    walk.push_turns(book, &list)?;
    let more = count_gliders(book.turns(), &walk.events[before..])?;
    let count = sum(draft.gliders, more)?;
    if count > MOST_GLIDERS {
        return Err(PlanError::StreamLong { count });
    }
    Ok(Plan {
        events: walk.events,
        first_hand: draft.first_hand,
        back: back_of(planner.placing.by),
    })
}
