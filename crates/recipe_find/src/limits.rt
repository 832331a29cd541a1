//! Whether what is found is within the limits of a book.

ghost use Rattle.std.specs.Prelude.{◌↔◌, IsTrue, ◌≤ℤ◌, pos};
ghost use Rattle.std.specs.List.{AllByRecursion};
ghost use Rattle.life_cells.specs.Cells.{alive};
ghost use Rattle.book_parts.specs.Limits.{IsCoordinate, IsPlaced};
ghost use Rattle.book_parts.specs.Proper.{IsDelay, IsIndex, IsProperPlace};
ghost use Rattle.recipe_find.specs.Limited.{IsBoxPlaced, IsEndLimited};

use book_parts::TurnEnd;
use book_parts::limits::{GREATEST_COORDINATE, GREATEST_INDEX, LONGEST_DELAY, MOST_LANES};
use find_salvo::Outcome;
use life_cells::{Bounds, Cell, CellSet};
use recipe_hit::limits::MOST_COUNTED;

/// The most generations that a candidate takes: those of a hit for each of its lanes.
pub const MOST_GENERATIONS: u64 = MOST_COUNTED * MOST_LANES;

/// Whether a coordinate, shift or lane is one that a book may have.
fn is_coordinate(number: i64) -> bool
    ensures { IsTrue result ↔ IsCoordinate number }
{
    -GREATEST_COORDINATE <= number && number <= GREATEST_COORDINATE
}

/// Whether a book may have a thrown glider of this index.
fn is_index(j: i64) -> bool
    ensures { IsTrue result ↔ IsIndex j }
{
    -GREATEST_INDEX <= j && j <= GREATEST_INDEX
}

/// Whether both coordinates are ones that a book may have.
fn are_coordinates(x: i64, y: i64) -> bool
    ensures { IsTrue result ↔ (IsCoordinate x × IsCoordinate y) }
{
    is_coordinate(x) && is_coordinate(y)
}

/// Whether the sides of a box are coordinates that a book may have.
fn is_box(bounds: Bounds) -> bool
    ensures { IsTrue result ↔ IsBoxPlaced bounds }
{
    are_coordinates(bounds.left, bounds.top) && are_coordinates(bounds.right, bounds.bottom)
}

/// Whether each cell has coordinates that a book may have.
fn is_placed(cells: &CellSet) -> bool
    ensures { IsTrue result ↔ IsPlaced (alive cells.now) }
{
    match cells.bounds() {
        Some(bounds) => is_box(bounds),
        None => true,
    }
}

/// Whether a book may have a hand left here, if it is left.
fn is_place(hand: Option<Cell>) -> bool
    ensures { IsTrue result ↔ IsProperPlace hand }
{
    match hand {
        Some(place) => are_coordinates(place.x, place.y),
        None => true,
    }
}

/// Whether a book may have this outcome.
pub(crate) fn is_outcome(outcome: &Outcome) -> bool
    ensures { IsTrue result ↔ (IsPlaced (alive outcome.now.product) × IsProperPlace outcome.now.hand) }
{
    is_placed(&outcome.product) && is_place(outcome.hand)
}

/// Whether the shift, lane and index of a turn's end are ones that a book may have.
pub(crate) fn is_end(end: TurnEnd) -> bool
    ensures { IsTrue result ↔ IsEndLimited end }
{
    match end {
        TurnEnd::Close => true,
        TurnEnd::Move { kind: _, shift } => is_coordinate(shift),
        TurnEnd::Emit {
            kind: _,
            shift,
            lane,
            j,
        } => is_coordinate(shift) && is_coordinate(lane) && is_index(j),
    }
}

/// Whether no delay is longer than one of a book; none of them is negative.
pub(crate) fn are_delays(delays: &[i64]) -> bool
    requires { AllByRecursion (λ delay. pos 0 ≤ℤ delay) delays.now }
    ensures { IsTrue result ↔ AllByRecursion IsDelay delays.now }
{
    for delay in delays {
        if *delay > LONGEST_DELAY {
            return false;
        }
    }
    true
}
