//! Calls on sets of cells: how they are made, compared and evolved, by plain steps alone.

ghost use Rattle.std.specs.Prelude.{◌^◌};
ghost use Rattle.life_cells.specs.Cells.{alive};
ghost use Rattle.life_cells.specs.Boxes.{IsInRange};

use crate::numbers::numbers_of;
use crate::show::{show_box, show_cells};
use life_cells::{Cell, CellSet, NoMemory, run_plain, step_plain};
use life_rle::read_rle;
use std::alloc::Global;

/// The cells at these numbers, x and y of each.
fn cells_of(alloc: Global, words: &[String]) -> Result<Vec<Cell>, NoMemory> {
    let mut cells = Vec::new(alloc);
    let mut left = None;
    for number in numbers_of(alloc, words)? {
        match left {
            None => left = Some(number),
            Some(x) => {
                cells.push(Cell::new(i64::from(x), i64::from(number)))?;
                left = None;
            }
        }
    }
    Ok(cells)
}

/// The set of cells that are given as their numbers, in any order and with repeats; and its box.
pub fn show_set(alloc: Global, words: &[String], report: &mut String) -> Result<bool, NoMemory> {
    let given = cells_of(alloc, words)?;
    let set = CellSet::from_cells(alloc, &given)?;
    show_cells(report, "cells", &set)?;
    match set.bounds() {
        Some(bounds) => show_box(report, bounds)?,
        None => report.push_str("no box\n")?,
    }
    let is_same = set.equal(&set.copy()?);
    let first = set.get(0).is_some_and(|first| set.contains(first));
    let past = set.get(set.len()).is_some();
    write!(report, "same {is_same} first {first} past {past}\n")?;
    Ok(true)
}

/// A pattern with cells put in, one after the other: whether each was new, whether it is there before, and the set behind them.
pub fn show_inserts(
    alloc: Global,
    text: &[u8],
    words: &[String],
    report: &mut String,
) -> Result<bool, NoMemory> {
    let Ok(pattern) = read_rle(alloc, text) else {
        return Ok(false);
    };
    let mut set = pattern.cells;
    for cell in &cells_of(alloc, words)? {
        let was_there = set.contains(*cell);
        let is_new = set.insert(*cell)?;
        write!(report, "there {was_there} new {is_new}\n")?;
    }
    show_cells(report, "cells", &set)?;
    Ok(true)
}

/// Two patterns: whether they are equal, their first difference, whether they are apart, and their union from either side.
pub fn show_pair(
    alloc: Global,
    text: &[u8],
    other: &[u8],
    report: &mut String,
) -> Result<bool, NoMemory> {
    let (Ok(left), Ok(right)) = (read_rle(alloc, text), read_rle(alloc, other)) else {
        return Ok(false);
    };
    let (left, right) = (left.cells, right.cells);
    let (is_equal, is_apart) = (left.equal(&right), left.apart(&right));
    write!(report, "equal {is_equal} apart {is_apart}\n")?;
    if let Some(cell) = left.first_difference(&right) {
        let (x, y) = (cell.x, cell.y);
        write!(report, "first difference {x},{y}\n")?;
    }
    let both = left.union(&right)?;
    let is_same = both.equal(&right.union(&left)?) && right.apart(&left) == is_apart;
    show_cells(report, "union", &both)?;
    write!(report, "either side {is_same}\n")?;
    Ok(true)
}

/// A pattern's next generation, and the one after so many.
pub fn show_plain(
    alloc: Global,
    text: &[u8],
    words: &[String],
    report: &mut String,
) -> Result<bool, NoMemory> {
    let Ok(pattern) = read_rle(alloc, text) else {
        return Ok(false);
    };
    for count in numbers_of(alloc, words)? {
        evolve(alloc, &pattern.cells, count.unsigned_abs(), report)?;
    }
    Ok(true)
}

/// The next generation of cells, and the one after so many.
fn evolve(alloc: Global, cells: &CellSet, count: u32, report: &mut String) -> Result<(), NoMemory>
    requires { IsInRange (2 ^ 40) (alive cells.now) }
{
    let next = step_plain(alloc, cells)?;
    show_cells(report, "next", &next)?;
    let last = run_plain(alloc, cells, count)?;
    show_cells(report, "last", &last)?;
    Ok(())
}
