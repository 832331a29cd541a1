//! The salvo that is taken for an island.

ghost use Rattle.std.specs.Prelude.{IfOk, IfSome, IfNone};
ghost use Rattle.build_plan.specs.Drafts.{AreLeft, stand_of};
ghost use Rattle.build_plan.specs.Planners.{IsPlanner};
ghost use Rattle.build_plan.specs.Trials.{IsHandIn, IsFirstUsable};
ghost use Rattle.build_plan.specs.Usable.{Taken, IsUsable};

use crate::planner::Planner;
use crate::search::Search;
use crate::trial::Trial;
use crate::walk::Walk;
use crate::ways::ways_from;
use lane_clear::BuiltSet;
use life_cells::{Cell, NoMemory};
use life_islands::{Island, shape_of};
use std::alloc::Global;

/// The salvo that is taken for the first of the islands left: the first by number that is usable. Its events, and those of the salvos that
/// carry the hand to its place, are added to what was walked. None where no salvo is usable.
pub(crate) fn find(
    alloc: Global,
    planner: &Planner,
    built: &BuiltSet,
    hand: Option<Cell>,
    left: &[Island],
    walk: &mut Walk,
) -> Result<Option<Trial>, NoMemory>
    requires planner { IsPlanner planner.now }
    requires hand { IsHandIn planner.now.placing.room hand }
    requires left { AreLeft left.now }
    ensures some { IfOk result (λ found. IfSome found (IsFirstUsable planner.now.book.now planner.now.placing.room (stand_of walk.old.elbow hand built.now left.now) walk.old walk.new)) }
    ensures none { IfOk result (λ found. IfNone found ((taken : Taken) → IsUsable planner.now.book.now planner.now.placing.room (stand_of walk.old.elbow hand built.now left.now) taken → ⊥)) }
{
    let (shape, corner) = shape_of(&left[0].cells)?;
    let ways = ways_from(alloc, planner, built, hand)?;
    let mut search = Search {
        planner,
        built,
        place: hand,
        ways,
        left,
        shape,
        corner,
    };
    let found = search.first_usable(alloc, walk)?;
    Ok(found)
}
