//! A turn, generation by generation, until it comes to an end.

ghost use Rattle.std.specs.Prelude.{◌≡◌, ◌↔◌, ◌+◌, ◌%◌, ◌≤◌, ◌^◌, IfOk, OnOk, IsTrue, MatchOption};
ghost use Rattle.std.specs.List.{AllByRecursion};
ghost use Rattle.life_cells.specs.Cells.{alive};
ghost use Rattle.life_cells.specs.Boxes.{IsInRange, IsBoxOf, IsBoxInRange};
ghost use Rattle.book_parts.specs.Limits.{AreProper};
ghost use Rattle.book_parts.specs.Proper.{IsDelay, IsProperKind};
ghost use Rattle.book_parts.specs.declared.limits.TheConstants.{LONGEST_TURN};
ghost use Rattle.recipe_turn.specs.Bounds.{KeepsBoth};
ghost use Rattle.recipe_turn.specs.Checked.{AreValid};
ghost use Rattle.find_turn.specs.Boxes.{AreBoxesOf};
ghost use Rattle.find_turn.specs.Search.{IsFirstEndAt, NeverEnds};
ghost use Rattle.find_turn.specs.Settled.{HasSettled, StopsWhenSettled};
ghost use Rattle.find_turn.specs.declared.search.TheConstants.{BETWEEN_LOOKS};
ghost use Rattle.find_turn.specs.Standing.{IsFirstEnd, IsNoEnd};

use crate::boxes::{boxes_of, may_be_end};
use crate::ending::end_of;
use crate::found_turn::FoundTurn;
use crate::settled::has_settled;
use crate::tried::Tried;
use book_parts::{RawKind, Settings, TurnEnd};
use life_cells::{Bounds, CellSet, NoMemory};
use life_steps::Steps;
use life_tiles::Tiles;
use recipe_turn::keeps_bounds;
use std::alloc::Global;
use std::sync::ledger::Ledger;

/// After so many generations it is looked again whether a pattern has settled.
const BETWEEN_LOOKS: u32 = 256;

/// The first of these generations at which a turn of these delays comes to an end, in bounds, from its start; None exactly where it doesn't.
/// Each generation is stepped once and looked at once. The search stops at one that breaks the bounds, at one that is still and was no end,
/// and, of those at which that is looked at, at one that has settled and is no end.
pub(crate) fn first_end<L: Ledger>(
    alloc: Global,
    settings: &Settings,
    kinds: &[RawKind],
    delays: &[i64],
    start: &CellSet,
    tried: Tried,
    steps: &mut Steps<L>,
) -> Result<Option<FoundTurn>, NoMemory>
    requires settings { AreProper settings.now }
    requires kinds { AllByRecursion IsProperKind kinds.now }
    requires valid { AreValid settings.now kinds.now }
    requires delays { AllByRecursion IsDelay delays.now }
    requires range { IsInRange (2 ^ 40) (alive start.now) }
    requires begins { KeepsBoth settings.now delays.now 0 (alive start.now) }
    requires some { 1 ≤ tried.least }
    requires longest { tried.most ≤ LONGEST_TURN }
    ensures found { IfOk result (λ found. MatchOption found (NeverEnds settings.now kinds.now delays.now (alive start.now) tried) (IsFirstEndAt settings.now kinds.now delays.now (alive start.now) tried)) }
    ensures settled { OnOk result (StopsWhenSettled (alive start.now) tried.least steps.old steps.new) }
    ensures least { steps.old ≤ steps.new }
    ensures most { steps.new ≤ steps.old + tried.most }
{
    let boxes = boxes_of(alloc, kinds)?;
    let mut tiles = Tiles::from_cells(alloc, start)?;
    tiles.reserve(tiles.tile_count().saturating_mul(9))?;
    for done in 0..tried.most {
        let changed = tiles.step(steps)?;
        if !changed && tried.least <= done {
            return Ok(None);
        }
        let n = done + 1;
        let bounds = tiles.bounds();
        if !is_kept(settings, delays, n, &tiles, bounds)? {
            return Ok(None);
        }
        if tried.least <= n {
            if let Some(end) = end_now(alloc, settings, kinds, &boxes, &tiles, bounds)? {
                return Ok(Some(FoundTurn { n, end }));
            }
            if is_over(alloc, n, &tiles)? {
                return Ok(None);
            }
        }
    }
    Ok(None)
}

/// Whether this generation is one at which it is looked whether the pattern has settled, and it has.
fn is_over(alloc: Global, n: u32, tiles: &Tiles) -> Result<bool, NoMemory>
    requires range { IsInRange (2 ^ 41) (alive tiles.now.cells) }
    ensures { IfOk result (λ over. IsTrue over ↔ ((n % BETWEEN_LOOKS ≡ 0) × HasSettled (alive tiles.now.cells))) }
{
    if n % BETWEEN_LOOKS != 0 {
        return Ok(false);
    }
    has_settled(alloc, &tiles.to_cells()?)
}

/// Whether a generation keeps the bounds of a turn of these delays, where its least box is given.
fn is_kept(
    settings: &Settings,
    delays: &[i64],
    n: u32,
    tiles: &Tiles,
    bounds: Option<Bounds>,
) -> Result<bool, NoMemory>
    requires settings { AreProper settings.now }
    requires delays { AllByRecursion IsDelay delays.now }
    requires time { n ≤ LONGEST_TURN }
    requires range { IsInRange (2 ^ 41) (alive tiles.now.cells) }
    requires bounds { IsBoxOf bounds (alive tiles.now.cells) }
    ensures { IfOk result (λ kept. IsTrue kept ↔ KeepsBoth settings.now delays.now n (alive tiles.now.cells)) }
{
    match bounds {
        None => Ok(true),
        Some(bounds) => keeps_bounds(settings, delays, n, tiles, bounds),
    }
}

/// The first end of a turn that leaves the cells of a generation, where its least box is given, and those of the kinds; None exactly where no
/// turn ends with them. The cells themselves are read only where the boxes don't tell.
fn end_now(
    alloc: Global,
    settings: &Settings,
    kinds: &[RawKind],
    boxes: &[Bounds],
    tiles: &Tiles,
    bounds: Option<Bounds>,
) -> Result<Option<TurnEnd>, NoMemory>
    requires settings { AreProper settings.now }
    requires kinds { AllByRecursion IsProperKind kinds.now }
    requires valid { AreValid settings.now kinds.now }
    requires boxes { AreBoxesOf kinds.now boxes.now }
    requires boxes_range { AllByRecursion (IsBoxInRange (2 ^ 30)) boxes.now }
    requires range { IsInRange (2 ^ 41) (alive tiles.now.cells) }
    requires bounds { IsBoxOf bounds (alive tiles.now.cells) }
    ensures { IfOk result (λ found. MatchOption found (IsNoEnd settings.now kinds.now (alive tiles.now.cells)) (IsFirstEnd settings.now kinds.now (alive tiles.now.cells))) }
{
    let Some(bounds) = bounds else {
        return Ok(Some(TurnEnd::Close));
    };
    if !may_be_end(settings, boxes, bounds) {
        return Ok(None);
    }
    end_of(alloc, settings, kinds, &tiles.to_cells()?)
}
