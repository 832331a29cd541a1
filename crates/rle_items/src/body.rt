//! Body words: items without gaps, and a `!` at the end.

ghost use Rattle.std.specs.Prelude.{◌≤◌, ◌^◌, length, IfOk, IfErr};
ghost use Rattle.life_cells.specs.Cells.{alive, in_order};
ghost use Rattle.life_cells.specs.Boxes.{IsInRange};
ghost use Rattle.rle_items.specs.Words.{WordMeans};
ghost use Rattle.rle_items.specs.Words.{IsNotNegative};
ghost use Rattle.rle_items.specs.Faults.{IsFineWord, StopsWith};

use crate::error::BodyError;
use crate::front::offset;
use crate::gaps::Gaps;
use crate::reading::read_items;
use life_cells::{Cell, CellSet};
use std::alloc::Global;

/// The live cells of a body word, its first item at (0,0).
///
/// Coordinates are at most 2^40, and there are at most 2^18 live cells.
///
/// # Errors
///
/// The first fault from the word's front, as `BodyError` names them.
pub fn read_body(alloc: Global, word: &[u8]) -> Result<CellSet, BodyError>
    ensures cells { IfOk result (λ cells. WordMeans word.now (alive cells)) }
    ensures fine { IfOk result (λ _. IsFineWord word.now) }
    ensures near { IfOk result (λ cells. IsInRange (2 ^ 40) (alive cells)) }
    ensures quadrant { IfOk result (λ cells. IsNotNegative (alive cells)) }
    ensures few { IfOk result (λ cells. length (in_order cells) ≤ 2 ^ 18) }
    ensures refusal { IfErr result (λ e. StopsWith word.now e) }
{
    let (cells, end) = read_items(alloc, Gaps::None, word, Cell::new(0, 0), word)?;
    if end.len() > 1 {
        let at = offset(word, end) + 1;
        return Err(BodyError::BadItem { at });
    }
    Ok(cells)
}
