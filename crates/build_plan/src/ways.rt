//! How the hand comes to a place.

ghost use Rattle.std.specs.Prelude.{◌≡◌, ℕ, List, Option, IfOk, IfSome, IfNone};
ghost use Rattle.life_cells.specs.declared.cell.Cell.{Cell as Place};
ghost use Rattle.hand_route.specs.Moves.{Site};
ghost use Rattle.life_cells.specs.Cells.{alive};
ghost use Rattle.build_plan.specs.Planners.{IsPlanner, AreWays};
ghost use Rattle.build_plan.specs.Trials.{IsHandIn};
ghost use Rattle.build_plan.specs.Usable.{IsWayIn, site_of};

use crate::planner::Planner;
use hand_route::HandWays;
use lane_clear::BuiltSet;
use life_cells::{Cell, NoMemory};
use std::alloc::Global;

/// The ways of the hand from its place among what is built; none before the first hand.
pub(crate) fn ways_from<'a>(
    alloc: Global,
    planner: &'a Planner<'a>,
    built: &'a BuiltSet,
    hand: Option<Cell>,
) -> Result<Option<HandWays<'a>>, NoMemory>
    requires planner { IsPlanner planner.now }
    requires hand { IsHandIn planner.now.placing.room hand }
    ensures { IfOk result (λ ways. AreWays (site_of planner.now.book.now planner.now.placing.room (alive built.now)) hand ways) }
{
    let Some(from) = hand else {
        return Ok(None);
    };
    let ways = HandWays::start(alloc, planner.salvos, built, planner.placing.room, from)?;
    Ok(Some(ways))
}

/// The salvos that carry the hand to a place, by their numbers: none for the first hand, which stands where it is wanted. None where it
/// can't be carried there.
pub(crate) fn way_to(
    alloc: Global,
    ways: &mut Option<HandWays>,
    to: Cell,
) -> Result<Option<Vec<usize>>, NoMemory>
    ensures same { (site : Site) (place : Option Place) → AreWays site place ways.old → AreWays site place ways.new }
    ensures some { (site : Site) (place : Option Place) → AreWays site place ways.old →
        IfOk result (λ found. IfSome found (λ list. IsWayIn site place list.items to)) }
    ensures none { (site : Site) (place : Option Place) → AreWays site place ways.old →
        IfOk result (λ found. IfNone found ((list : List ℕ) → IsWayIn site place list to → ⊥)) }
{
    match ways {
        None => Ok(Some(Vec::new(alloc))),
        Some(ways) => ways.list_to(alloc, to),
    }
}
