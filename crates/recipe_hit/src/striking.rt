//! A glider strikes.

ghost use Rattle.std.specs.Prelude.{◌≡◌, ◌+◌, ◌≤◌, ◌≤ℤ◌, ◌*ℤ◌, ◌^◌, pos, neg_ℤ, IfOk, IfErr};
ghost use Rattle.life_cells.specs.Cells.{alive};
ghost use Rattle.life_cells.specs.Boxes.{IsInRange, IsBoxInRange};
ghost use Rattle.life_plane.specs.Plane.{union};
ghost use Rattle.life_plane.specs.Salvo.{salvo_glider};
ghost use Rattle.recipe_hit.specs.Strike.{IsHit, first_quarter};
ghost use Rattle.recipe_hit.specs.Refusals.{HitIsRefused};
ghost use Rattle.recipe_hit.specs.declared.limits.TheConstants.{MOST_COUNTED};

use crate::boxes::{grown, is_near};
use crate::frame::{Hit, HitFrame};
use crate::limits::LONGEST_HIT;
use crate::refusal::HitRefusal;
use crate::rest::come_to_rest;
use life_cells::{Bounds, CellSet, NoMemory};
use life_gliders::{Track, glider_cells};
use life_steps::Steps;
use std::alloc::Global;
use std::sync::ledger::Ledger;

/// The hit of a glider of a lane with a set of cells (docs/DEFINITIONS.md, "Hit"). Each generation is counted, at most 4,097.
///
/// # Errors
/// `Empty` exactly where there is no cell; `NotSettled` exactly where there are cells and no hit; `Memory` for want of memory.
pub fn hit<L: Ledger>(
    alloc: Global,
    cells: &CellSet,
    lane: i64,
    steps: &mut Steps<L>,
) -> Result<Hit, HitRefusal>
    requires range { IsInRange (2 ^ 40) (alive cells.now) }
    requires low { neg_ℤ (pos (2 ^ 41)) ≤ℤ lane }
    requires high { lane ≤ℤ pos (2 ^ 41) }
    ensures hit { IfOk result (λ hit. IsHit (alive cells.now) lane hit) }
    ensures refusal { IfErr result (λ e. HitIsRefused (alive cells.now) lane e) }
    ensures least { steps.old ≤ steps.new }
    ensures most { steps.new ≤ steps.old + MOST_COUNTED }
{
    let Some(struck) = cells.bounds() else {
        return Err(HitRefusal::Empty);
    };
    let start = first_quarter_of(struck, lane);
    let before = with_glider(alloc, cells, lane, start)?;
    let bounds = grown(struck, before.bounds());
    let Some(rest) = come_to_rest(alloc, &before, bounds, steps)? else {
        return Err(HitRefusal::NotSettled { after: LONGEST_HIT });
    };
    if !is_near(rest.bounds, struck) {
        return Err(HitRefusal::NotSettled { after: LONGEST_HIT });
    }
    Ok(Hit {
        after: rest.after,
        generations: rest.generations,
        frame: HitFrame {
            lane,
            start,
            bounds: rest.bounds,
        },
    })
}

/// The quarter of a glider's index from which it comes to what lies in the box.
fn first_quarter_of(struck: Bounds, lane: i64) -> i64
    requires struck { IsBoxInRange (2 ^ 40) struck }
    requires low { neg_ℤ (pos (2 ^ 41)) ≤ℤ lane }
    requires high { lane ≤ℤ pos (2 ^ 41) }
    ensures start { result ≡ first_quarter struck lane }
    ensures low { neg_ℤ (pos (2 ^ 42)) ≤ℤ result }
    ensures high { result ≤ℤ pos (2 ^ 42) }
{
    let beside = struck.left - 6 - lane;
    let below = -struck.bottom - 6;
    beside.max(below)
}

/// What is struck, and the glider of a lane at this quarter.
fn with_glider(alloc: Global, cells: &CellSet, lane: i64, quarter: i64) -> Result<CellSet, NoMemory>
    requires lane_low { neg_ℤ (pos (2 ^ 41)) ≤ℤ lane }
    requires lane_high { lane ≤ℤ pos (2 ^ 41) }
    requires low { neg_ℤ (pos (2 ^ 42)) ≤ℤ quarter }
    requires high { quarter ≤ℤ pos (2 ^ 42) }
    ensures { IfOk result (λ s. alive s ≡ union (alive cells.now) (salvo_glider lane (pos 4 *ℤ quarter))) }
{
    let glider = CellSet::from_cells(alloc, &glider_cells(Track::Salvo { lane }, 4 * quarter))?;
    cells.union(&glider)
}
