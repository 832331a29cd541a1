//! The kinds of the sample.

ghost use Rattle.std.specs.Prelude.{◌≡◌, ◌≤◌, IfOk};
ghost use Rattle.life_sample.specs.Sample.{kind, kinds};

use crate::blocks::blocks;
use crate::limits::{GREATEST_GAP, LEAST_GAP, MOST_COUNT};
use crate::names::numbered;
use book_parts::RawKind;
use life_cells::NoMemory;
use std::alloc::Global;

/// The kind with this number: as many blocks.
fn kind(alloc: Global, number: u32, gap: u32) -> Result<RawKind, NoMemory>
    requires few { number ≤ MOST_COUNT }
    requires wide { LEAST_GAP ≤ gap }
    requires near { gap ≤ GREATEST_GAP }
    ensures { IfOk result (λ made. made ≡ kind gap number) }
{
    let name = numbered(alloc, "k", number)?;
    let cells = blocks(alloc, number, gap)?;
    Ok(RawKind { name, cells })
}

/// The kinds, one for each number up to `count`.
pub(crate) fn kinds(alloc: Global, count: u32, gap: u32) -> Result<Vec<RawKind>, NoMemory>
    requires few { count ≤ MOST_COUNT }
    requires wide { LEAST_GAP ≤ gap }
    requires near { gap ≤ GREATEST_GAP }
    ensures { IfOk result (λ made. made.items ≡ kinds gap count) }
{
    let mut kinds = Vec::new(alloc);
    for before in 0..count {
        let kind = kind(alloc, before + 1, gap)?;
        kinds.push(kind)?;
    }
    Ok(kinds)
}
