//! The plan of a book for a target.

ghost use Rattle.std.specs.Prelude.{◌<◌, ◌+◌, length, IfOk, IfErr};
ghost use Rattle.life_cells.specs.Cells.{alive};
ghost use Rattle.build_plan.specs.Drafts.{AreNear, IsDraftTo};
ghost use Rattle.build_plan.specs.Plan.{IsPlan, IsPlanFor};
ghost use Rattle.build_plan.specs.Planners.{IsPlanner};
ghost use Rattle.build_plan.specs.Stops.{PlanStops, StopsFor};

use crate::closing::close;
use crate::draft::Draft;
use crate::error::PlanError;
use crate::event::Plan;
use crate::placing::{Placing, own_cell};
use crate::planner::Planner;
use book_parts::limits::MOST_GLIDERS;
use elbow_route::ElbowGraph;
use hand_route::HandSalvos;
use life_islands::{Island, islands};
use life_target::Target;
use recipe_book::CheckedBook;
use std::alloc::Global;

/// The plan of a checked book for a target. For each island, in order, the first salvo by number is taken that is usable; each of its
/// lanes, and of those of the salvos that carry the hand there, gets the least list of turns. In the end the last hand is taken away and
/// the elbow is closed. The events are in the book's own coordinates, x right and y down; the plan says the shift back.
///
/// # Errors
///
/// `NoRecipe` at the first island for which no salvo is usable. `NoClosing` where all islands are built and no list of turns closes the
/// elbow. `StreamLong` at the first island with which the stream has more than 2^20 gliders, or where it has with the turns after the last
/// island. `Memory` for want of memory, at any time.
pub fn plan(alloc: Global, book: &CheckedBook, target: &Target) -> Result<Plan, PlanError>
    ensures plan { IfOk result (λ plan. IsPlan book.now (alive target.now) plan) }
    ensures stop { IfErr result (λ e. PlanStops book.now (alive target.now) e) }
{
    let placing = Placing::of(book.settings(), target.cells());
    let moved = target.cells().shift(placing.by.x, placing.by.y)?;
    let islands = islands(alloc, &moved)?;
    let graph = ElbowGraph::of(alloc, book.turns())?;
    let salvos = HandSalvos::of(alloc, book.settings(), book.salvos())?;
    let planner = Planner {
        book,
        graph: &graph,
        salvos: &salvos,
        placing,
    };
    plan_for(alloc, &planner, &islands)
}

/// The plan for islands, which are where the target is built.
fn plan_for(alloc: Global, planner: &Planner, islands: &[Island]) -> Result<Plan, PlanError>
    requires planner { IsPlanner planner.now }
    requires islands { AreNear islands.now }
    ensures plan { IfOk result (IsPlanFor planner.now.book.now planner.now.placing islands.now) }
    ensures stop { IfErr result (StopsFor planner.now.book.now planner.now.placing islands.now) }
{
    let draft = build_all(alloc, planner, islands)?;
    close(alloc, planner, draft)
}

/// Takes a salvo for each of the islands.
fn build_all(alloc: Global, planner: &Planner, islands: &[Island]) -> Result<Draft, PlanError>
    requires planner { IsPlanner planner.now }
    requires islands { AreNear islands.now }
    ensures draft { IfOk result (IsDraftTo planner.now.book.now planner.now.placing.room islands.now (length islands.now)) }
    ensures stop { IfErr result (StopsFor planner.now.book.now planner.now.placing islands.now) }
{
    let mut draft = Draft::start(alloc, planner.book);
    for place in 0..islands.len() {
        draft = build_next(alloc, planner, islands, place, draft)?;
    }
    Ok(draft)
}

/// Takes a salvo for the island at a place, where those before it are built.
fn build_next(
    alloc: Global,
    planner: &Planner,
    islands: &[Island],
    place: usize,
    draft: Draft,
) -> Result<Draft, PlanError>
    requires planner { IsPlanner planner.now }
    requires islands { AreNear islands.now }
    requires place { place < length islands.now }
    requires draft { IsDraftTo planner.now.book.now planner.now.placing.room islands.now place draft }
    ensures draft { IfOk result (IsDraftTo planner.now.book.now planner.now.placing.room islands.now (place + 1)) }
    ensures stop { IfErr result (StopsFor planner.now.book.now planner.now.placing islands.now) }
{
    let Some(next) = draft.take(alloc, planner, &islands[place..])? else {
        return Err(PlanError::NoRecipe {
            island: place + 1,
            at: own_cell(islands[place].first, planner.placing.by),
        });
    };
    if next.gliders > MOST_GLIDERS {
        return Err(PlanError::StreamLong {
            count: next.gliders,
        });
    }
    Ok(next)
}
