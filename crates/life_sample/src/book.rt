//! The book of the sample.

ghost use Rattle.std.specs.Prelude.{◌≡◌, ◌≤◌, ◌*◌, pos, IfOk};
ghost use Rattle.book_parts.specs.Proper.{IsProperBook};
ghost use Rattle.life_sample.specs.Sample.{settings, IsSample};

use crate::blocks::blocks;
use crate::kinds::kinds;
use crate::limits::{GREATEST_GAP, LEAST_GAP, MOST_COUNT};
use crate::turns::turns;
use book_parts::{Range, RawBook, Settings};
use life_cells::{Cell, NoMemory};
use std::alloc::Global;

/// The settings, with this span.
fn settings(span: i64) -> Settings
    ensures { result ≡ settings span }
{
    Settings {
        approach: 40,
        wall: 4,
        reach: 40,
        corner: Cell::new(60, -60),
        room: 40,
        span,
        lanes: Range {
            low: 0,
            high: 3,
            len: 1,
        },
        delays: Range {
            low: 50,
            high: 52,
            len: 2,
        },
    }
}

/// The sample with `count` kinds and turns, whose blocks stand `gap` cells apart, right and down. The kind with number i is i blocks along the diagonal.
/// One glider takes the first of them away, and the book's turns take all of the last kind away, block by block.
///
/// # Errors
///
/// Only for want of memory.
pub fn sample_book(alloc: Global, count: u32, gap: u32) -> Result<RawBook, NoMemory>
    requires some { 1 ≤ count }
    requires few { count ≤ MOST_COUNT }
    requires wide { LEAST_GAP ≤ gap }
    requires near { gap ≤ GREATEST_GAP }
    ensures stated { IfOk result (λ book. IsSample count gap book) }
    ensures proper { IfOk result (λ book. IsProperBook book) }
{
    let hand = blocks(alloc, 1, gap)?;
    let kinds = kinds(alloc, count, gap)?;
    let turns = turns(alloc, count, gap)?;
    Ok(RawBook {
        settings: settings(i64::from(count) * i64::from(gap)),
        hand,
        kinds,
        start: count as usize,
        turns,
        salvos: Vec::new(alloc),
    })
}
