//! Gliders that strike one after the other.

ghost use Rattle.std.specs.Prelude.{◌≡◌, ◌+◌, ◌*◌, ◌≤◌, ◌≤ℤ◌, ◌^◌, pos, neg_ℤ, length, IfOk, IfErr};
ghost use Rattle.std.specs.List.{AllByRecursion};
ghost use Rattle.life_cells.specs.Cells.{alive};
ghost use Rattle.life_cells.specs.Boxes.{IsInRange};
ghost use Rattle.book_parts.specs.Limits.{IsCoordinate};
ghost use Rattle.book_parts.specs.Proper.{IsProperHand};
ghost use Rattle.book_parts.specs.declared.limits.TheConstants.{MOST_LANES};
ghost use Rattle.recipe_hit.specs.Strike.{IsHit};
ghost use Rattle.recipe_hit.specs.Sound.{AreHits, what_is_left};
ghost use Rattle.recipe_hit.specs.Checked.{AreSmallFrames};
ghost use Rattle.recipe_hit.specs.SalvoRefusals.{LaneIsRefused, LanesAreRefused};
ghost use Rattle.recipe_hit.specs.declared.limits.TheConstants.{MOST_COUNTED};

use crate::frame::Hit;
use crate::refusal::{HitRefusal, SalvoRefusal};
use crate::striking::hit;
use life_cells::CellSet;
use life_steps::Steps;
use std::alloc::Global;
use std::sync::ledger::Ledger;

/// What the last of these hits leaves; the hand where there is none. It takes no memory.
pub fn left_by<'a>(hand: &'a CellSet, hits: &'a [Hit]) -> &'a CellSet
    ensures { alive result.now ≡ what_is_left (alive hand.now) hits.now }
{
    match hits.last() {
        Some(hit) => &hit.after,
        None => hand,
    }
}

/// The hits of a glider of each lane, one after the other. At most 4,097 generations a lane are counted.
pub(crate) fn strike_in_turn<L: Ledger>(
    alloc: Global,
    hand: &CellSet,
    lanes: &[i64],
    steps: &mut Steps<L>,
) -> Result<Vec<Hit>, SalvoRefusal>
    requires hand { IsProperHand (alive hand.now) }
    requires few { length lanes.now ≤ MOST_LANES }
    requires lanes { AllByRecursion IsCoordinate lanes.now }
    ensures hits { IfOk result (λ hits. AreHits (alive hand.now) lanes.now hits.items) }
    ensures small { IfOk result (λ hits. AreSmallFrames hits.items) }
    ensures refusal { IfErr result (λ e. LanesAreRefused (alive hand.now) lanes.now e) }
    ensures least { steps.old ≤ steps.new }
    ensures most { steps.new ≤ steps.old + MOST_COUNTED * length lanes.now }
{
    let mut hits = Vec::new(alloc);
    for (place, lane) in lanes.iter().enumerate() {
        let next = strike(alloc, left_by(hand, &hits), *lane, place + 1, steps)?;
        hits.push(next)?;
    }
    Ok(hits)
}

/// The hit of a glider of the lane at this place.
fn strike<L: Ledger>(
    alloc: Global,
    struck: &CellSet,
    lane: i64,
    place: usize,
    steps: &mut Steps<L>,
) -> Result<Hit, SalvoRefusal>
    requires range { IsInRange (2 ^ 40) (alive struck.now) }
    requires low { neg_ℤ (pos (2 ^ 41)) ≤ℤ lane }
    requires high { lane ≤ℤ pos (2 ^ 41) }
    ensures hit { IfOk result (λ hit. IsHit (alive struck.now) lane hit) }
    ensures refusal { IfErr result (λ e. LaneIsRefused (alive struck.now) lane place e) }
    ensures least { steps.old ≤ steps.new }
    ensures most { steps.new ≤ steps.old + MOST_COUNTED }
{
    match hit(alloc, struck, lane, steps) {
        Ok(hit) => Ok(hit),
        Err(HitRefusal::Empty) => Err(SalvoRefusal::Empty { place }),
        Err(HitRefusal::NotSettled { .. }) => Err(SalvoRefusal::NotSettled { place }),
        Err(HitRefusal::Memory) => Err(SalvoRefusal::Memory),
    }
}
