//! What stands beside the lanes of gliders.

ghost use Rattle.std.specs.Prelude.{◌≡◌, ℤ, OnOk, Some};
ghost use Rattle.std.specs.HashMap.{get, Updates};
ghost use Rattle.std.specs.Ordering.{int_eq};
ghost use Rattle.life_cells.specs.Boxes.{IsInRange, IsCellInRange};
ghost use Rattle.life_cells.specs.Listed.{listed};
ghost use Rattle.lane_clear.specs.Frames.{farthest};
ghost use Rattle.lane_clear.specs.Barriers.{lesser_of, with_cell, with_cells};

use life_cells::{Cell, NoMemory};
use std::collections::HashMap;

/// How far below a lane the v of a cell beside it is at most.
const BELOW: i64 = 6;

/// How far above the lane it is at most.
const ABOVE: i64 = 5;

/// The lesser of a number and a lane's, if it has one.
fn lesser(u: i64, other: Option<i64>) -> i64
    ensures { result ≡ lesser_of u other }
{
    match other {
        Some(other) => u.min(other),
        None => u,
    }
}

/// Puts a cell of this u beside a lane.
fn lower(barriers: &mut HashMap<i64, i64>, lane: i64, u: i64) -> Result<(), NoMemory>
    ensures { OnOk result (Updates int_eq barriers.old barriers.new lane (Some (lesser_of u (get int_eq barriers.old lane)))) }
{
    let least = lesser(u, barriers.get(&lane).copied());
    barriers.insert(lane, least)?;
    Ok(())
}

/// Puts a cell beside each lane that it is beside.
fn add_cell(barriers: &mut HashMap<i64, i64>, cell: Cell) -> Result<(), NoMemory>
    requires { IsCellInRange farthest cell }
    ensures { OnOk result ((lane : ℤ) → get int_eq barriers.new lane ≡ with_cell lane (get int_eq barriers.old lane) cell) }
{
    let u = cell.x - cell.y;
    let v = cell.x + cell.y;
    for lane in v - ABOVE..v + BELOW + 1 {
        lower(barriers, lane, u)?;
    }
    Ok(())
}

/// Puts cells beside the lanes that they are beside.
pub(crate) fn add_cells(barriers: &mut HashMap<i64, i64>, cells: &[Cell]) -> Result<(), NoMemory>
    requires { IsInRange farthest (listed cells.now) }
    ensures { OnOk result ((lane : ℤ) → get int_eq barriers.new lane ≡ with_cells lane (get int_eq barriers.old lane) cells.now) }
{
    for cell in cells {
        add_cell(barriers, *cell)?;
    }
    Ok(())
}
