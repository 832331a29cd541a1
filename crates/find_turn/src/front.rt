//! What is in front of the wall, and what isn't.

ghost use Rattle.std.specs.Prelude.{◌≡◌, ◌↔◌, ◌^◌, neg_ℤ, pos, ◌+ℤ◌, ◌*ℤ◌, ◌≤ℤ◌, IfOk, IsTrue};
ghost use Rattle.std.specs.Int.{int_div_euclid};
ghost use Rattle.life_cells.specs.Cells.{alive};
ghost use Rattle.life_cells.specs.Boxes.{IsInRange, IsCellInRange};
ghost use Rattle.book_parts.specs.Limits.{AreProper};
ghost use Rattle.find_turn.specs.Behind.{behind, is_behind};

use book_parts::Settings;
use life_cells::{Cell, CellSet, NoMemory};
use recipe_turn::least_u;
use std::alloc::Global;

/// Whether the glider of this lane and index has left the wall by 5, which is told by the quarter that it is in.
pub(crate) fn is_in_front(settings: &Settings, lane: i64, j: i64) -> bool
    requires settings { AreProper settings.now }
    requires lane_low { neg_ℤ (pos (2 ^ 50)) ≤ℤ lane }
    requires lane_high { lane ≤ℤ pos (2 ^ 50) }
    requires index_low { neg_ℤ (pos (2 ^ 50)) ≤ℤ j }
    requires index_high { j ≤ℤ pos (2 ^ 50) }
    ensures { IsTrue result ↔ ((settings.now.wall +ℤ pos 5) ≤ℤ ((lane +ℤ pos 2 *ℤ int_div_euclid j (pos 4)) +ℤ pos 1)) }
{
    settings.wall + 5 <= least_u(lane, j)
}

/// Whether the cell isn't in front of the wall.
fn lies_behind(settings: &Settings, cell: Cell) -> bool
    requires settings { AreProper settings.now }
    requires cell { IsCellInRange (2 ^ 41) cell }
    ensures { result ≡ is_behind settings.now.wall cell }
{
    cell.x - cell.y < settings.wall + 5
}

/// The cells that aren't in front of the wall: u = x - y is at most four more than it.
pub(crate) fn cells_behind(
    alloc: Global,
    settings: &Settings,
    cells: &CellSet,
) -> Result<CellSet, NoMemory>
    requires settings { AreProper settings.now }
    requires range { IsInRange (2 ^ 41) (alive cells.now) }
    ensures { IfOk result (λ s. alive s ≡ behind settings.now.wall (alive cells.now)) }
{
    let mut kept = Vec::new(alloc);
    for cell in cells.cells() {
        if lies_behind(settings, *cell) {
            kept.push(*cell)?;
        }
    }
    Ok(CellSet::from_rising(kept))
}
