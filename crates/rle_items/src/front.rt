//! What stands at the front of a rest of items.

ghost use Rattle.std.specs.Prelude.{◌≡◌, ℕ, ◌<◌, ◌≤◌, ◌^◌, List, length, IfOk, IfErr, IfSome, IfNone};
ghost use Rattle.life_cells.specs.declared.cell.Cell.{Cell};
ghost use Rattle.rle_items.specs.declared.item.Item.{Item};
ghost use Rattle.rle_items.specs.Spelling.{tag_of};
ghost use Rattle.rle_items.specs.Gaps.{gap_of, IsAtTag, IsAtEnd};
ghost use Rattle.rle_items.specs.ItemFaults.{BeginsAt, IsFault};
ghost use Rattle.rle_items.specs.Read.{IsItemAt};

use crate::digits::{count_of, split_digits};
use crate::error::BodyError;
use crate::gaps::Gaps;
use crate::item::{Item, Tag};

/// An item that was read.
#[derive(Clone, Copy)]
pub struct Front<'a> {
    /// The item.
    pub item: Item,
    /// The place of its tag in the text.
    pub at: u64,
    /// What follows its tag.
    pub more: &'a [u8],
}

/// Where a tag should stand.
#[derive(Clone, Copy)]
pub struct TagPlace<'a> {
    /// The rest from the digits of the count on.
    pub from: &'a [u8],
    /// These digits, or none.
    pub digits: &'a [u8],
    /// The rest from the tag on.
    pub at_tag: &'a [u8],
}

/// The tag that a byte spells.
pub fn read_tag(byte: u8) -> Option<Tag>
    ensures { result ≡ tag_of byte }
{
    match byte {
        b'b' | b'.' => Some(Tag::Dead),
        b'o' | b'A' => Some(Tag::Alive),
        b'$' => Some(Tag::RowEnd),
        _ => None,
    }
}

/// The place in a text, in bytes, at which a rest of it begins.
pub fn offset(text: &[u8], rest: &[u8]) -> u64
    requires { length rest.now ≤ length text.now }
    ensures { BeginsAt text.now rest.now result }
{
    (text.len() - rest.len()) as u64
}

/// The digits behind a gap, and what stands behind the next gap.
fn tag_place(gaps: Gaps, rest: &[u8]) -> TagPlace<'_>
    ensures place { IsAtTag (gap_of gaps) rest.now result.from.now result.digits.now result.at_tag.now }
    ensures from { length result.from.now ≤ length rest.now }
    ensures at_tag { length result.at_tag.now ≤ length rest.now }
{
    let from = gaps.skip(rest);
    let (digits, more) = split_digits(from);
    TagPlace {
        from,
        digits,
        at_tag: gaps.skip(more),
    }
}

/// The item at the front of a rest of a text. None at the `!`.
///
/// # Errors
///
/// `BadCount`, `NoEnd` or `BadItem`, whichever stands at the rest's front.
pub fn next_item<'a>(
    gaps: Gaps,
    text: &[u8],
    rest: &'a [u8],
) -> Result<Option<Front<'a>>, BodyError>
    requires { length rest.now ≤ length text.now }
    ensures item { IfOk result (λ o. IfSome o (λ f. IsItemAt (gap_of gaps) text.now rest.now f.item f.at f.more.now)) }
    ensures small { IfOk result (λ o. IfSome o (λ f. f.item.count < 10 ^ 18)) }
    ensures end { IfOk result (λ o. IfNone o (IsAtEnd (gap_of gaps) rest.now)) }
    ensures err { IfErr result (λ e. (place : Cell) (items : List Item) → IsFault (gap_of gaps) text.now place rest.now items e) }
{
    let place = tag_place(gaps, rest);
    let Some(count) = count_of(place.digits) else {
        let at = offset(text, place.from);
        return Err(BodyError::BadCount { at });
    };
    let Some((byte, more)) = place.at_tag.split_first() else {
        return Err(BodyError::NoEnd);
    };
    let at = offset(text, place.at_tag);
    match read_tag(*byte) {
        Some(tag) => {
            let item = Item { count, tag };
            Ok(Some(Front { item, at, more }))
        }
        None if *byte != b'!' => Err(BodyError::BadItem { at }),
        None if place.digits.is_empty() => Ok(None),
        None => {
            let at = offset(text, place.from);
            Err(BodyError::BadCount { at })
        }
    }
}
