//! The bounds that the cells of kinds and turns keep: a kind's place, a turn's reach, and its tail, behind which only its own gliders are.

ghost use Rattle.std.specs.Prelude.{◌≡◌, ◌≤◌, ◌^◌, ◌↔◌, ℤ, pos, ◌+ℤ◌, ◌*ℤ◌, ◌≤ℤ◌, IsTrue, MatchOption};
ghost use Rattle.std.specs.List.{AllByRecursion};
ghost use Rattle.life_cells.specs.Cells.{alive};
ghost use Rattle.life_cells.specs.Boxes.{IsInRange, InBox};
ghost use Rattle.book_parts.specs.Limits.{AreProper};
ghost use Rattle.book_parts.specs.Proper.{IsDelay};
ghost use Rattle.book_parts.specs.declared.limits.TheConstants.{LONGEST_TURN};
ghost use Rattle.recipe_turn.specs.Kind.{IsInPlace};
ghost use Rattle.recipe_turn.specs.Turn.{IsInReach, IsAheadOrOwn};
ghost use Rattle.recipe_turn.specs.Bounds.{AllKeep, IsFirstBreaking, Keeps, IsProperBound};
ghost use Rattle.recipe_turn.specs.Range.{IsWithinReach};

use crate::diagonals::{ahead_of_tail, u_of};
use crate::own_gliders::is_own;
use book_parts::Settings;
use life_cells::{Bounds, Cell, CellSet};

/// How far ahead of the stream the cells of a kind are at least: twice v = x + y, counted from half the approach before the frame.
pub(crate) const KIND_MARGIN: i64 = 20;

/// What a cell is held against.
#[derive(Clone, Copy)]
pub(crate) enum Bound<'a> {
    /// A kind's place.
    Place,
    /// A turn's reach.
    Reach,
    /// A turn's tail at a time.
    Tail {
        /// The delays of the turn's gliders.
        delays: &'a [i64],
        /// The time, in generations.
        t: u32,
    },
}

/// Whether each place in the box is within the reach and ahead of the tail.
pub(crate) fn is_clear(settings: &Settings, bounds: Bounds) -> bool
    requires settings { AreProper settings.now }
    requires left { IsWithinReach bounds.left bounds.top }
    requires right { IsWithinReach bounds.right bounds.top }
    ensures reach { IsTrue result → (x y : ℤ) → InBox bounds x y → IsInReach settings.now x y }
    ensures tail { IsTrue result → (x y : ℤ) → InBox bounds x y → pos 2 ≤ℤ (pos 2 *ℤ (x +ℤ y) +ℤ settings.now.approach) }
{
    let left = Cell {
        y: bounds.top,
        x: bounds.left,
    };
    let right = Cell {
        y: bounds.top,
        x: bounds.right,
    };
    u_of(right) <= settings.reach && 2 <= ahead_of_tail(settings, left)
}

/// Whether a kind may have this cell.
fn is_in_place(settings: &Settings, cell: Cell) -> bool
    requires settings { AreProper settings.now }
    requires cell { IsWithinReach cell.x cell.y }
    ensures { IsTrue result ↔ IsInPlace settings.now cell.x cell.y }
{
    u_of(cell) <= settings.wall && KIND_MARGIN <= ahead_of_tail(settings, cell)
}

/// Whether a cell is within the reach.
fn is_in_reach(settings: &Settings, cell: Cell) -> bool
    requires settings { AreProper settings.now }
    requires cell { IsWithinReach cell.x cell.y }
    ensures { IsTrue result ↔ IsInReach settings.now cell.x cell.y }
{
    u_of(cell) <= settings.reach
}

/// Whether the turn may have a cell here at time t, for all that the tail says.
fn is_ahead_or_own(settings: &Settings, delays: &[i64], t: u32, cell: Cell) -> bool
    requires settings { AreProper settings.now }
    requires delays { AllByRecursion IsDelay delays.now }
    requires time { t ≤ LONGEST_TURN }
    requires cell { IsWithinReach cell.x cell.y }
    ensures { IsTrue result ↔ IsAheadOrOwn settings.now delays.now t cell.x cell.y }
{
    2 <= ahead_of_tail(settings, cell) || is_own(settings, delays, t, cell)
}

/// Whether a cell keeps a bound.
fn keeps(settings: &Settings, bound: Bound<'_>, cell: Cell) -> bool
    requires settings { AreProper settings.now }
    requires bound { IsProperBound bound }
    requires cell { IsWithinReach cell.x cell.y }
    ensures { IsTrue result ↔ Keeps settings.now bound.entry cell.x cell.y }
{
    match bound {
        Bound::Place => is_in_place(settings, cell),
        Bound::Reach => is_in_reach(settings, cell),
        Bound::Tail { delays, t } => is_ahead_or_own(settings, delays, t, cell),
    }
}

/// The first cell that breaks a bound.
pub(crate) fn first_breaking(settings: &Settings, bound: Bound<'_>, cells: &CellSet) -> Option<Cell>
    requires settings { AreProper settings.now }
    requires bound { IsProperBound bound }
    requires range { IsInRange (2 ^ 41) (alive cells.now) }
    ensures { MatchOption result (AllKeep (Keeps settings.now bound.entry) (alive cells.now)) (IsFirstBreaking (Keeps settings.now bound.entry) (alive cells.now)) }
{
    for cell in cells.cells() {
        if !keeps(settings, bound, *cell) {
            return Some(*cell);
        }
    }
    None
}
