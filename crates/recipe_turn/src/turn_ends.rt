//! What a turn states that it leaves.

ghost use Rattle.std.specs.Prelude.{◌≡◌, ◌^◌, pos, neg_ℤ, ◌+ℤ◌, ◌*ℤ◌, ◌≤ℤ◌, IfOk, IfErr};
ghost use Rattle.std.specs.Int.{int_div_euclid};
ghost use Rattle.life_cells.specs.Cells.{alive};
ghost use Rattle.book_parts.specs.Limits.{AreProper, IsPlaced};
ghost use Rattle.recipe_turn.specs.Turn.{turn_end, IsInFront};
ghost use Rattle.recipe_turn.specs.Refusals.{FrontIsRefused};
ghost use Rattle.recipe_turn.specs.Range.{IsWithinLimits};

use crate::refusal::TurnRefusal;
use book_parts::{Settings, TurnEnd};
use life_cells::{CellSet, NoMemory};
use life_gliders::{Track, glider_cells};
use std::alloc::Global;

/// The cells that a turn is to leave, where next is the kind that it leads to.
pub(crate) fn stated_end(alloc: Global, end: TurnEnd, next: &CellSet) -> Result<CellSet, NoMemory>
    requires end { IsWithinLimits end }
    requires next { IsPlaced (alive next.now) }
    ensures { IfOk result (λ cells. alive cells ≡ turn_end end (alive next.now)) }
{
    match end {
        TurnEnd::Close => Ok(CellSet::empty(alloc)),
        TurnEnd::Move { shift, .. } => next.shift(shift, shift),
        TurnEnd::Emit { shift, lane, j, .. } => {
            let elbow = next.shift(shift, shift)?;
            let thrown = CellSet::from_cells(alloc, &glider_cells(Track::Salvo { lane }, j))?;
            elbow.union(&thrown)
        }
    }
}

/// The least u = x - y of the glider of this lane in the quarter that it is in at this index: what is held against the wall where it is thrown.
pub fn least_u(lane: i64, j: i64) -> i64
    requires lane_low { neg_ℤ (pos (2 ^ 50)) ≤ℤ lane }
    requires lane_high { lane ≤ℤ pos (2 ^ 50) }
    requires index_low { neg_ℤ (pos (2 ^ 50)) ≤ℤ j }
    requires index_high { j ≤ℤ pos (2 ^ 50) }
    ensures { result ≡ (lane +ℤ pos 2 *ℤ int_div_euclid j (pos 4)) +ℤ pos 1 }
{
    let quarters = j.div_euclid(4);
    lane + 2 * quarters + 1
}

/// Refuses a turn whose thrown glider is not yet 5 past the wall.
pub(crate) fn test_front(settings: &Settings, end: TurnEnd) -> Result<(), TurnRefusal>
    requires settings { AreProper settings.now }
    requires end { IsWithinLimits end }
    ensures front { IfOk result (λ _. IsInFront settings.now end) }
    ensures refusal { IfErr result (λ e. FrontIsRefused settings.now end e) }
{
    let TurnEnd::Emit { lane, j, .. } = end else {
        return Ok(());
    };
    let u = least_u(lane, j);
    if u < settings.wall + 5 {
        return Err(TurnRefusal::Wall { u });
    }
    Ok(())
}
