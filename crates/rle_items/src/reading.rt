//! Items read one after the other, up to a `!`.

ghost use Rattle.std.specs.Prelude.{◌≤◌, length, IfOk, IfErr};
ghost use Rattle.rle_items.specs.Reach.{IsInReach};
ghost use Rattle.rle_items.specs.Gaps.{gap_of};
ghost use Rattle.rle_items.specs.ItemFaults.{ItemsStopWith};
ghost use Rattle.rle_items.specs.Read.{IsRead};

use crate::cells::add_cells;
use crate::cursor::Cursor;
use crate::error::BodyError;
use crate::front::next_item;
use crate::gaps::Gaps;
use life_cells::{Cell, CellSet};
use std::alloc::Global;

/// The live cells of the items of a body, the first of them at this place, and what stands from the end of the items on: a gap
/// and a `!`. The text ends with the body; places in it count from its front.
///
/// Coordinates are from -2^40 to 2^40, and there are at most 2^18 live cells.
///
/// # Errors
///
/// The first fault from the body's front, as `BodyError` names them.
pub fn read_items<'a>(
    alloc: Global,
    gaps: Gaps,
    text: &[u8],
    place: Cell,
    body: &'a [u8],
) -> Result<(CellSet, &'a [u8]), BodyError>
    requires near { IsInReach place }
    requires within { length body.now ≤ length text.now }
    ensures read { IfOk result (λ r. IsRead (gap_of gaps) place body.now r.0 r.1.now) }
    ensures refusal { IfErr result (λ e. ItemsStopWith (gap_of gaps) text.now place body.now e) }
{
    let mut cells = Vec::new(alloc);
    let mut cursor = Cursor::start();
    let mut rest = body;
    while let Some(front) = next_item(gaps, text, rest)? {
        let next = cursor.behind(front.item);
        next.check(place, front.at)?;
        add_cells(&mut cells, cursor.from_place(place), front.item)?;
        cursor = next;
        rest = front.more;
    }
    Ok((CellSet::from_rising(cells), rest))
}
