//! The salvo's glider in front of the wall, found by its first cell.

ghost use Rattle.std.specs.Prelude.{◌≡◌, ◌↔◌, ◌<◌, ◌^◌, ◌≤ℤ◌, ℤ, pos, neg_ℤ, IfSome, IfNone, IsTrue};
ghost use Rattle.life_plane.specs.Salvo.{salvo_glider};
ghost use Rattle.life_cells.specs.Cells.{alive};
ghost use Rattle.life_cells.specs.Boxes.{IsInRange, IsCellInRange};
ghost use Rattle.life_gliders.specs.Beyond.{beyond};
ghost use Rattle.life_gliders.specs.Listing.{cell_at_rest};
ghost use Rattle.life_gliders.specs.Starts.{first_of_phase, StartsAt};

use crate::beyond::{are_beyond, first_beyond};
use crate::glider::cells_on;
use crate::tables::FIRST_OF_PHASE;
use crate::track::Track;
use life_cells::{Cell, CellSet};

/// The cell of a phase at rest that comes first once the phase is turned upside down.
fn first_at_rest(number: usize) -> (u8, u8)
    requires { number < 4 }
    ensures { cell_at_rest result ≡ first_of_phase number }
{
    FIRST_OF_PHASE[number]
}

/// The lane and index of the salvo's glider in this phase whose first cell, in (y,x) order, is this one.
fn starting_at(first: Cell, number: usize) -> (i64, i64)
    requires first { IsCellInRange (2 ^ 58) first }
    requires number { number < 4 }
    ensures start { StartsAt first number result.0 result.1 }
    ensures lane_low { neg_ℤ (pos (2 ^ 60)) ≤ℤ result.0 }
    ensures lane_high { result.0 ≤ℤ pos (2 ^ 60) }
    ensures index_low { neg_ℤ (pos (2 ^ 61)) ≤ℤ result.1 }
    ensures index_high { result.1 ≤ℤ pos (2 ^ 61) }
{
    let (x, y) = first_at_rest(number);
    let quarters = -first.y - i64::from(y);
    let lane = first.x - quarters - i64::from(x);
    (lane, 4 * quarters + number as i64)
}

/// Whether the cells in front of the wall are exactly the salvo's glider of this lane and index.
fn is_glider(cells: &CellSet, wall: i64, lane: i64, j: i64) -> bool
    requires cells { IsInRange (2 ^ 58) (alive cells.now) }
    requires low { neg_ℤ (pos 4096) ≤ℤ wall }
    requires high { wall ≤ℤ pos 4096 }
    requires lane_low { neg_ℤ (pos (2 ^ 60)) ≤ℤ lane }
    requires lane_high { lane ≤ℤ pos (2 ^ 60) }
    requires index_low { neg_ℤ (pos (2 ^ 61)) ≤ℤ j }
    requires index_high { j ≤ℤ pos (2 ^ 61) }
    ensures { IsTrue result ↔ (beyond wall (alive cells.now) ≡ salvo_glider lane j) }
{
    let five = cells_on(Track::Salvo { lane }, j);
    are_beyond(cells, wall, &five)
}

/// The lane and the index of the salvo's glider in front of the wall: Some exactly where the cells with
/// u = x - y at least wall + 5 are the five cells of one glider of a salvo. It takes no memory.
pub fn find_salvo_glider(cells: &CellSet, wall: i64) -> Option<(i64, i64)>
    requires cells { IsInRange (2 ^ 58) (alive cells.now) }
    requires low { neg_ℤ (pos 4096) ≤ℤ wall }
    requires high { wall ≤ℤ pos 4096 }
    ensures some { IfSome result (λ r. beyond wall (alive cells.now) ≡ salvo_glider r.0 r.1) }
    ensures none { IfNone result ((l j : ℤ) → beyond wall (alive cells.now) ≡ salvo_glider l j → ⊥) }
{
    let Some(first) = first_beyond(cells, wall) else {
        return None;
    };
    for number in 0..4 {
        let (lane, j) = starting_at(first, number);
        if is_glider(cells, wall, lane, j) {
            return Some((lane, j));
        }
    }
    None
}
