//! Calls on cells: bodies, hits, islands and shapes.

ghost use Rattle.std.specs.Prelude.{◌^◌};
ghost use Rattle.life_cells.specs.Cells.{alive};
ghost use Rattle.life_cells.specs.Boxes.{IsInRange};

use crate::show::{show_box, show_cells};
use life_cells::{CellSet, NoMemory};
use life_islands::{is_one_island, islands, shape_of};
use life_rle::{read_body, read_rle};
use life_steps::Steps;
use recipe_hit::{Hit, hit};
use std::alloc::{AllocError, Global};
use std::sync::ledger::Ledger;

/// The cells of a body word, or why it is none.
pub fn show_body(alloc: Global, text: &[u8], report: &mut String) -> Result<bool, NoMemory> {
    match read_body(alloc, text) {
        Ok(cells) => show_cells(report, "cells", &cells)?,
        Err(refusal) => write!(report, "{refusal:?}\n")?,
    }
    Ok(true)
}

/// What is done to the cells of a pattern by a glider of each lane.
pub fn show_hits<L: Ledger>(
    alloc: Global,
    text: &[u8],
    lanes: &[String],
    report: &mut String,
    steps: &mut Steps<L>,
) -> Result<bool, NoMemory> {
    let Ok(pattern) = read_rle(alloc, text) else {
        return Ok(false);
    };
    for word in lanes {
        let Ok(lane) = word.parse::<i32>() else {
            return Ok(false);
        };
        strike(alloc, &pattern.cells, lane, report, steps)?;
    }
    Ok(true)
}

/// What a glider of a lane does to cells.
fn strike<L: Ledger>(
    alloc: Global,
    cells: &CellSet,
    lane: i32,
    report: &mut String,
    steps: &mut Steps<L>,
) -> Result<(), AllocError>
    requires { IsInRange (2 ^ 40) (alive cells.now) }
{
    match hit(alloc, cells, i64::from(lane), steps) {
        Ok(found) => show_hit(report, &found),
        Err(refusal) => write!(report, "{refusal:?}\n"),
    }
}

/// A hit: its lane, the quarter of its glider's index at which it begins, how many generations it takes, the bounds of all cells on
/// the way, and what is left.
pub fn show_hit(report: &mut String, found: &Hit) -> Result<(), AllocError> {
    let (lane, start, generations) = (found.frame.lane, found.frame.start, found.generations);
    write!(
        report,
        "lane {lane} start {start} generations {generations} "
    )?;
    show_box(report, found.frame.bounds)?;
    show_cells(report, "leaves", &found.after)
}

/// The islands of a pattern in their order, and whether it is one island.
pub fn show_islands(alloc: Global, text: &[u8], report: &mut String) -> Result<bool, NoMemory> {
    let Ok(pattern) = read_rle(alloc, text) else {
        return Ok(false);
    };
    for island in &islands(alloc, &pattern.cells)? {
        let (x, y) = (island.first.x, island.first.y);
        write!(report, "first {x},{y} ")?;
        show_cells(report, "cells", &island.cells)?;
    }
    let is_one = is_one_island(alloc, &pattern.cells)?;
    write!(report, "one island {is_one}\n")?;
    Ok(true)
}

/// The shape of a pattern, and the top left of its box.
pub fn show_shape(alloc: Global, text: &[u8], report: &mut String) -> Result<bool, NoMemory> {
    let Ok(pattern) = read_rle(alloc, text) else {
        return Ok(false);
    };
    if pattern.cells.is_empty() {
        return Ok(false);
    }
    let (shape, corner) = shape_of(&pattern.cells)?;
    let (x, y) = (corner.x, corner.y);
    write!(report, "corner {x},{y} ")?;
    show_cells(report, "cells", shape.cells())?;
    Ok(true)
}
