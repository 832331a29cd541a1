//! Farewells of the hand.

ghost use Rattle.std.specs.Prelude.{◌≡◌, IfOk, IfSome, IfNone, Some};
ghost use Rattle.life_cells.specs.Boxes.{InBox};
ghost use Rattle.life_cells.specs.Cells.{alive};
ghost use Rattle.build_plan.specs.Planners.{IsPlanner};
ghost use Rattle.build_plan.specs.Usable.{SaysFarewell, CanSayFarewell};

use crate::planner::Planner;
use crate::serving::serve;
use crate::throwing::push_list;
use crate::walk::Walk;
use elbow_route::Elbow;
use hand_route::{HandWays, farewells_are_one};
use lane_clear::BuiltSet;
use life_cells::{Cell, NoMemory};
use std::alloc::Global;

/// The turns and hits of the farewell of a hand, from an elbow; None where it has no list of salvos, or a lane of theirs no list of turns.
pub(crate) fn say_farewell(
    alloc: Global,
    planner: &Planner,
    built: &BuiltSet,
    from: Cell,
    elbow: Elbow,
) -> Result<Option<Walk>, NoMemory>
    requires planner { IsPlanner planner.now }
    requires from { InBox planner.now.placing.room from.x from.y }
    ensures some { IfOk result (λ found. IfSome found (λ walk. SaysFarewell planner.now.book.now planner.now.placing.room (alive built.now) (Some from) elbow walk.events.items walk.elbow)) }
    ensures none { IfOk result (λ found. IfNone found (CanSayFarewell planner.now.book.now planner.now.placing.room (alive built.now) (Some from) elbow → ⊥)) }
{
    // This says that least farewells are one; it does nothing.
    farewells_are_one();
    let mut ways = HandWays::start(alloc, planner.salvos, built, planner.placing.room, from)?;
    let Some(list) = ways.farewell(alloc)? else {
        return Ok(None);
    };
    let mut throws = Vec::new(alloc);
    push_list(&mut throws, planner.book, from, &list)?;
    let mut walk = Walk {
        elbow,
        events: Vec::new(alloc),
    };
    if serve(alloc, planner.book, planner.graph, &mut walk, &throws)? {
        Ok(Some(walk))
    } else {
        Ok(None)
    }
}
