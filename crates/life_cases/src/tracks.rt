//! Calls on gliders, and on tests by numbers that sets are apart.

ghost use Rattle.std.specs.Prelude.{◌^◌};
ghost use Rattle.life_cells.specs.Cells.{alive};
ghost use Rattle.life_cells.specs.Boxes.{IsInRange, IsBoxInRange};

use crate::numbers::numbers_of;
use life_cells::{Bounds, CellSet, NoMemory};
use life_cone::{box_apart, split_apart, strip_apart};
use life_gliders::{Track, find_salvo_glider, glider_cells};
use life_rle::read_rle;
use std::alloc::Global;

/// The cells of a stream's glider of an index, or of a salvo's of an index and a lane, as they are listed.
pub fn show_glider(alloc: Global, words: &[String], report: &mut String) -> Result<bool, NoMemory> {
    let numbers = numbers_of(alloc, words)?;
    let (track, j) = match *numbers.as_slice() {
        [j] => (Track::Stream, j),
        [j, lane] => (
            Track::Salvo {
                lane: i64::from(lane),
            },
            j,
        ),
        _ => return Ok(false),
    };
    report.push_str("cells 5:")?;
    for cell in glider_cells(track, i64::from(j)) {
        let (x, y) = (cell.x, cell.y);
        write!(report, " {x},{y}")?;
    }
    report.push('\n')?;
    Ok(true)
}

/// The lane and the index of the glider that a pattern has in front of a wall.
pub fn show_found(
    alloc: Global,
    text: &[u8],
    words: &[String],
    report: &mut String,
) -> Result<bool, NoMemory> {
    let Ok(pattern) = read_rle(alloc, text) else {
        return Ok(false);
    };
    for wall in numbers_of(alloc, words)? {
        let found = found_at(&pattern.cells, wall);
        write!(report, "{found:?}\n")?;
    }
    Ok(true)
}

/// The lane and the index of the glider that cells have in front of a wall, which is within 4,096.
fn found_at(cells: &CellSet, wall: i32) -> Option<(i64, i64)>
    requires { IsInRange (2 ^ 40) (alive cells.now) }
{
    let wall = i64::from(wall);
    if wall < -4096 || 4096 < wall {
        return None;
    }
    find_salvo_glider(cells, wall)
}

/// A box by its sides: left, top, right and bottom.
fn box_of(left: i32, top: i32, right: i32, bottom: i32) -> Bounds
    ensures { IsBoxInRange (2 ^ 60) result }
{
    Bounds {
        left: i64::from(left),
        top: i64::from(top),
        right: i64::from(right),
        bottom: i64::from(bottom),
    }
}

/// Whether two boxes are apart, by the sides of both, and the other way round.
pub fn show_boxes(alloc: Global, words: &[String], report: &mut String) -> Result<bool, NoMemory> {
    let numbers = numbers_of(alloc, words)?;
    let [left, top, right, bottom, l, t, r, b] = *numbers.as_slice() else {
        return Ok(false);
    };
    let (one, other) = (box_of(left, top, right, bottom), box_of(l, t, r, b));
    let (is_apart, is_so) = (box_apart(one, other), box_apart(other, one));
    write!(report, "{is_apart} {is_so}\n")?;
    Ok(true)
}

/// Whether a pattern is beside a strip along a diagonal.
pub fn show_strip(
    alloc: Global,
    text: &[u8],
    words: &[String],
    report: &mut String,
) -> Result<bool, NoMemory> {
    let Ok(pattern) = read_rle(alloc, text) else {
        return Ok(false);
    };
    let numbers = numbers_of(alloc, words)?;
    let [low, high] = *numbers.as_slice() else {
        return Ok(false);
    };
    let is_apart = strip_apart(&pattern.cells, i64::from(low), i64::from(high));
    write!(report, "{is_apart}\n")?;
    Ok(true)
}

/// Whether a diagonal lies between two patterns.
pub fn show_split(
    alloc: Global,
    west: &[u8],
    east: &[u8],
    words: &[String],
    report: &mut String,
) -> Result<bool, NoMemory> {
    let (Ok(west), Ok(east)) = (read_rle(alloc, west), read_rle(alloc, east)) else {
        return Ok(false);
    };
    for limit in numbers_of(alloc, words)? {
        let is_split = are_split(&west.cells, limit, &east.cells);
        write!(report, "{is_split}\n")?;
    }
    Ok(true)
}

/// Whether a diagonal lies between two sets.
fn are_split(west: &CellSet, limit: i32, east: &CellSet) -> bool
    requires west { IsInRange (2 ^ 40) (alive west.now) }
    requires east { IsInRange (2 ^ 40) (alive east.now) }
{
    split_apart(west, i64::from(limit), east)
}
