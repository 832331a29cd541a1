//! Targets.

ghost use Rattle.std.specs.Prelude.{◌≡◌, ◌+◌, ◌≤◌, ◌^◌, ◌≤ℤ◌, pos, IfOk, IfErr};
ghost use Rattle.std.specs.Int.{int_max};
ghost use Rattle.life_plane.specs.Plane.{IsStill};
ghost use Rattle.life_cells.specs.Cells.{alive};
ghost use Rattle.life_cells.specs.Boxes.{IsInRange, IsBoxInRange};
ghost use Rattle.life_target.specs.Targets.{width, height, IsNarrow, IsTarget, HasFewIslands, SideIsRefused, ChangeIsRefused, NumberIsRefused, TargetIsRefused};

use crate::refusal::TargetError;
use life_cells::{Bounds, CellSet};
use life_islands::islands;
use life_steps::Steps;
use life_tiles::first_change;
use std::alloc::Global;
use std::marker::Model;
use std::sync::ledger::Ledger;

/// The greatest side of a target, in cells.
const MOST_SIDE: u64 = 2048;

/// The most islands of a target.
const MOST_ISLANDS: u64 = 4096;

/// What is to be built: a still life of at most 2,048 by 2,048 cells and 4,096 islands, with coordinates from -2^40 to 2^40.
#[derive(Debug, Drop)]
pub struct Target {
    cells: CellSet,
}

impl Model for Target {
    ghost use Rattle.life_cells.specs.Cells.{Cells, coded_cells, alive};
    ghost use Rattle.life_target.specs.Targets.{IsTarget};

    ghost Value = { Cells };

    ghost coded = { coded_cells };

    ghost view = { λ t. t.cells };

    ghost invariant = { λ t. IsTarget (alive t.cells) };
}

impl Target {
    /// The target of these cells; they are handed back where they are none. One generation is counted at most.
    ///
    /// # Errors
    /// The first that holds, in this order: `TooWide` where the greater side passes 2,048; `NotStill` where a cell changes, with the
    /// first such cell; `TooManyIslands` where there are more than 4,096 islands. `Memory` for want of memory, at any time.
    pub fn new<L: Ledger>(
        alloc: Global,
        cells: CellSet,
        steps: &mut Steps<L>,
    ) -> Result<Target, (CellSet, TargetError)>
        requires { IsInRange (2 ^ 40) (alive cells) }
        ensures same { IfOk result (λ target. target ≡ cells) }
        ensures target { IfOk result (λ target. IsTarget (alive target)) }
        ensures back { IfErr result (λ e. e.0 ≡ cells) }
        ensures refusal { IfErr result (λ e. TargetIsRefused (alive cells) e.1) }
        ensures least { steps.old ≤ steps.new }
        ensures most { steps.new ≤ steps.old + 1 }
    {
        match test_target(alloc, &cells, steps) {
            Ok(()) => Ok(Target { cells }),
            Err(refusal) => Err((cells, refusal)),
        }
    }

    /// Its cells. It takes no memory.
    pub fn cells(&self) -> &CellSet
        ensures cells { result.now ≡ self.now }
        ensures target { IsTarget (alive self.now) }
    {
        &self.cells
    }
}

/// Refuses cells that are no target.
fn test_target<L: Ledger>(
    alloc: Global,
    cells: &CellSet,
    steps: &mut Steps<L>,
) -> Result<(), TargetError>
    requires { IsInRange (2 ^ 40) (alive cells.now) }
    ensures target { IfOk result (λ _. IsTarget (alive cells.now)) }
    ensures refusal { IfErr result (λ e. TargetIsRefused (alive cells.now) e) }
    ensures least { steps.old ≤ steps.new }
    ensures most { steps.new ≤ steps.old + 1 }
{
    test_side(cells)?;
    test_change(alloc, cells, steps)?;
    test_number(alloc, cells)
}

/// The greater side of a box, in cells.
fn side_of(bounds: Bounds) -> u64
    requires columns { bounds.left ≤ℤ bounds.right }
    requires range { IsBoxInRange (2 ^ 40) bounds }
    ensures { pos result ≡ int_max (width bounds) (height bounds) }
{
    let width = bounds.right - bounds.left + 1;
    let height = bounds.bottom - bounds.top + 1;
    width.max(height) as u64
}

/// Refuses cells that are too wide or too high.
fn test_side(cells: &CellSet) -> Result<(), TargetError>
    requires { IsInRange (2 ^ 40) (alive cells.now) }
    ensures narrow { IfOk result (λ _. IsNarrow (alive cells.now)) }
    ensures refusal { IfErr result (λ e. SideIsRefused (alive cells.now) e) }
{
    let side = match cells.bounds() {
        None => return Ok(()),
        Some(bounds) => side_of(bounds),
    };
    if side > MOST_SIDE {
        return Err(TargetError::TooWide { side });
    }
    Ok(())
}

/// Refuses cells that change, after one generation.
fn test_change<L: Ledger>(
    alloc: Global,
    cells: &CellSet,
    steps: &mut Steps<L>,
) -> Result<(), TargetError>
    requires { IsInRange (2 ^ 40) (alive cells.now) }
    ensures still { IfOk result (λ _. IsStill (alive cells.now)) }
    ensures refusal { IfErr result (λ e. ChangeIsRefused (alive cells.now) e) }
    ensures least { steps.old ≤ steps.new }
    ensures most { steps.new ≤ steps.old + 1 }
{
    match first_change(alloc, cells, steps)? {
        None => Ok(()),
        Some(cell) => Err(TargetError::NotStill { cell }),
    }
}

/// Refuses cells of too many islands.
fn test_number(alloc: Global, cells: &CellSet) -> Result<(), TargetError>
    requires { IsInRange (2 ^ 40) (alive cells.now) }
    ensures few { IfOk result (λ _. HasFewIslands (alive cells.now)) }
    ensures refusal { IfErr result (λ e. NumberIsRefused (alive cells.now) e) }
{
    let count = islands(alloc, cells)?.len() as u64;
    if count > MOST_ISLANDS {
        return Err(TargetError::TooManyIslands { count });
    }
    Ok(())
}
