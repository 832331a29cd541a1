//! Texts of patterns.

ghost use Rattle.std.specs.Prelude.{◌≤◌, ◌^◌, length, IfOk, IfErr};
ghost use Rattle.life_cells.specs.Cells.{alive, in_order};
ghost use Rattle.life_cells.specs.Boxes.{IsInRange};
ghost use Rattle.life_rle.specs.Text.{Means};
ghost use Rattle.life_rle.specs.TextFaults.{IsFineText, TextStopsWith};

use crate::comments::without_comments;
use crate::error::RleError;
use crate::pattern::Pattern;
use crate::start::read_start;
use rle_items::{Gaps, read_items};
use std::alloc::Global;

/// The pattern of a text.
///
/// Lines that begin with `#` are comments, wherever they stand before the `!`; blank lines are passed over. The first comment
/// before the header that begins with `#CXRLE` may give the place of the first item by a word `Pos=x,y`, which is (0,0) else.
/// The header is `x = m, y = n` and optionally `, rule = R`, R being `B3/S23`, `23/3` or `Life` in any case of letters. Items
/// follow, each an optional count and a tag, and `!` ends them. White space may stand anywhere between counts and tags.
/// Coordinates are from -2^40 to 2^40, and there are at most 2^18 live cells.
///
/// # Errors
///
/// The first fault in the order of the text, as `RleError` names them. That the place is too far comes after the faults of the
/// header. At one item a bad count comes before the limits, and `TooFar` before `TooMany`.
pub fn read_rle(alloc: Global, text: &[u8]) -> Result<Pattern, RleError>
    ensures meaning { IfOk result (λ p. Means text.now (alive p.cells)) }
    ensures fine { IfOk result (λ _. IsFineText text.now) }
    ensures range { IfOk result (λ p. IsInRange (2 ^ 40) (alive p.cells)) }
    ensures few { IfOk result (λ p. length (in_order p.cells) ≤ 2 ^ 18) }
    ensures refusal { IfErr result (λ e. TextStopsWith text.now e) }
{
    let start = read_start(text)?;
    let body = without_comments(alloc, start.body)?;
    let (cells, _) = read_items(alloc, Gaps::White, text, start.place, &body)?;
    Ok(Pattern { cells })
}
