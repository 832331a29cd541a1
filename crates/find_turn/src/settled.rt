//! Patterns that have settled, so that they come to no end of a turn any more that they aren't.

ghost use Rattle.std.specs.Prelude.{◌≡◌, ◌↔◌, ◌⊎◌, ◌^◌, pos, ◌+ℤ◌, ◌-ℤ◌, ◌≤ℤ◌, Some, IfOk, IfSome, IsTrue, MatchOption};
ghost use Rattle.life_plane.specs.Strips.{Each, VAtMost};
ghost use Rattle.life_cells.specs.Boxes.{IsInRange, IsCellInRange};
ghost use Rattle.life_cells.specs.Cells.{alive};
ghost use Rattle.life_gliders.specs.Beyond.{IsPartOf};
ghost use Rattle.find_turn.specs.Boxes.{IsNear};
ghost use Rattle.find_turn.specs.declared.settled.TheConstants.{FLIGHT_MARGIN};
ghost use Rattle.find_turn.specs.Settled.{ahead, back, is_ahead, is_back, HasSettled, IsLeastGone};

use life_cells::{Cell, CellSet, NoMemory, run_plain};
use std::alloc::Global;

/// The generations after which a pattern that has settled comes back, but for what flies off: a glider does once in so many.
const PERIOD: u32 = 4;

/// How far what flies off is ahead of the rest at least, in v = x + y, so that the two stay apart for that long.
const FLIGHT_MARGIN: i64 = 21;

/// Whether a pattern has settled. Four generations later it is the same; or the least v of what is gone by then tells where the part that
/// flies off begins, and that part is far enough ahead of the rest, and one further right and down.
pub(crate) fn has_settled(alloc: Global, cells: &CellSet) -> Result<bool, NoMemory>
    requires range { IsInRange (2 ^ 41) (alive cells.now) }
    ensures { IfOk result (λ settled. IsTrue settled ↔ HasSettled (alive cells.now)) }
{
    let later = run_plain(alloc, cells, PERIOD)?;
    let Some(limit) = least_gone(cells, &later) else {
        return Ok(cells.equal(&later));
    };
    let rest = cells_back(alloc, cells, limit)?;
    if !is_parted(&rest, limit) {
        return Ok(false);
    }
    let flying = cells_ahead(alloc, cells, limit)?.shift(1, 1)?;
    let flown = rest.union(&flying)?;
    Ok(flown.equal(&later))
}

/// v = x + y.
fn v_of(cell: Cell) -> i64
    requires { IsCellInRange (2 ^ 41) cell }
    ensures value { result ≡ cell.x +ℤ cell.y }
    ensures near { IsNear result }
{
    cell.x + cell.y
}

/// The least v = x + y of the cells that are not among the later ones; None exactly where all are.
fn least_gone(cells: &CellSet, later: &CellSet) -> Option<i64>
    requires range { IsInRange (2 ^ 41) (alive cells.now) }
    ensures least { MatchOption result (IsPartOf (alive cells.now) (alive later.now)) (IsLeastGone (alive cells.now) (alive later.now)) }
    ensures near { IfSome result IsNear }
{
    let mut least = None;
    for cell in cells.cells() {
        if !later.contains(*cell) {
            least = Some(lesser(least, v_of(*cell)));
        }
    }
    least
}

/// The lesser of two numbers, of which the first may be wanting.
fn lesser(found: Option<i64>, v: i64) -> i64
    requires found { IfSome found IsNear }
    requires v { IsNear v }
    ensures first { IfSome found (λ least. result ≤ℤ least) }
    ensures second { result ≤ℤ v }
    ensures either { (result ≡ v) ⊎ (found ≡ Some result) }
    ensures near { IsNear result }
{
    match found {
        Some(least) if least < v => least,
        _ => v,
    }
}

/// Whether all cells have v = x + y less than the limit by the margin at least.
fn is_parted(cells: &CellSet, limit: i64) -> bool
    requires range { IsInRange (2 ^ 41) (alive cells.now) }
    requires limit { IsNear limit }
    ensures { IsTrue result ↔ Each (VAtMost (limit -ℤ FLIGHT_MARGIN)) (alive cells.now) }
{
    for cell in cells.cells() {
        if limit < v_of(*cell) + FLIGHT_MARGIN {
            return false;
        }
    }
    true
}

/// Whether a cell has less v = x + y than the limit.
fn lies_back(cell: Cell, limit: i64) -> bool
    requires cell { IsCellInRange (2 ^ 41) cell }
    requires limit { IsNear limit }
    ensures { result ≡ is_back limit cell }
{
    v_of(cell) < limit
}

/// Whether a cell has v = x + y at least the limit.
fn lies_ahead(cell: Cell, limit: i64) -> bool
    requires cell { IsCellInRange (2 ^ 41) cell }
    requires limit { IsNear limit }
    ensures { result ≡ is_ahead limit cell }
{
    limit <= v_of(cell)
}

/// The cells with less v = x + y than the limit.
fn cells_back(alloc: Global, cells: &CellSet, limit: i64) -> Result<CellSet, NoMemory>
    requires range { IsInRange (2 ^ 41) (alive cells.now) }
    requires limit { IsNear limit }
    ensures { IfOk result (λ s. alive s ≡ back limit (alive cells.now)) }
{
    let mut kept = Vec::new(alloc);
    for cell in cells.cells() {
        if lies_back(*cell, limit) {
            kept.push(*cell)?;
        }
    }
    Ok(CellSet::from_rising(kept))
}

/// The cells with v = x + y at least the limit.
fn cells_ahead(alloc: Global, cells: &CellSet, limit: i64) -> Result<CellSet, NoMemory>
    requires range { IsInRange (2 ^ 41) (alive cells.now) }
    requires limit { IsNear limit }
    ensures { IfOk result (λ s. alive s ≡ ahead limit (alive cells.now)) }
{
    let mut kept = Vec::new(alloc);
    for cell in cells.cells() {
        if lies_ahead(*cell, limit) {
            kept.push(*cell)?;
        }
    }
    Ok(CellSet::from_rising(kept))
}
