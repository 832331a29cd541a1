//! The lines of salvos: `NAME :`, the lanes, `:`, the product, `:`, and the hand's place.

ghost use Rattle.std.specs.Prelude.{◌≡◌, ◌≤◌, ◌<◌, ◌^◌, [], ◌∷◌, ◌↔◌, codes, length, IsTrue, IfOk, IfSome, IfNone, Option};
ghost use Rattle.life_cells.specs.declared.cell.Cell.{Cell};
ghost use Rattle.book_lines.specs.declared.statement.Placed.{Placed};
ghost use Rattle.book_lines.specs.declared.statement.SalvoLine.{SalvoLine};
ghost use Rattle.book_lines.specs.Lines.{texts};
ghost use Rattle.book_lines.specs.Values.{Level};
ghost use Rattle.book_lines.specs.Forms.{IsProduct, IsHand, IsSalvoLine};
ghost use Rattle.book_lines.specs.Cuts.{IsSalvoCut};
ghost use Rattle.book_lines.specs.Counts.{product_count};
ghost use Rattle.book_lines.specs.Reads.{Reads, ReadsOrErrs};

use crate::fault::{LineError, LineFault};
use crate::items::{first, is_word, only, split_colon};
use crate::name::name;
use crate::numbers::{are_numbers, is_pair, numbers, pair};
use crate::placed::{is_placed, placed};
use crate::statement::{Placed, SalvoLine};
use book_parts::Name;
use life_cells::Cell;
use std::alloc::Global;

/// The parts of a salvo's line.
#[derive(Clone, Copy)]
struct SalvoItems<'a, 'b> {
    name: &'a str,
    lanes: &'b [&'a [u8]],
    product: &'b [&'a [u8]],
    hand: &'b [&'a [u8]],
}

/// What a salvo's line states.
pub fn salvo(alloc: Global, items: &[&[u8]]) -> Result<SalvoLine, LineError>
    ensures salvo { ReadsOrErrs (λ level salvo. IsSalvoLine level salvo (texts items.now)) result }
    ensures few_lanes { IfOk result (λ salvo. length salvo.lanes < 2 ^ 63) }
    ensures few_cells { IfOk result (λ salvo. product_count salvo.product ≤ 2 ^ 61) }
{
    let Some(parts) = salvo_items(items) else {
        return Err(LineError::Fault(LineFault::Form));
    };
    let Some(lanes) = numbers(alloc, parts.lanes)? else {
        return Err(LineError::Fault(LineFault::Number));
    };
    let Some(hand) = hand_place(parts.hand) else {
        return Err(LineError::Fault(LineFault::Number));
    };
    let product = product(alloc, parts.product)?;
    Ok(SalvoLine {
        name: Name::from_text(alloc, parts.name)?,
        lanes,
        product,
        hand,
    })
}

/// The parts of a salvo's line, where they have their forms.
fn salvo_items<'a, 'b>(items: &'b [&'a [u8]]) -> Option<SalvoItems<'a, 'b>>
    ensures some { IfSome result (λ cut. IsSalvoCut (texts items.now) cut.name.now (texts cut.lanes.now) (texts cut.product.now) (texts cut.hand.now)) }
    ensures none { IfNone result ((salvo : SalvoLine) → IsSalvoLine Level.Form salvo (texts items.now) → ⊥) }
{
    let (own, behind) = first(items)?;
    let (colon, behind) = first(behind)?;
    if !is_word(colon, ":") {
        return None;
    }
    let (lanes, behind) = split_colon(behind)?;
    let (product, hand) = split_colon(behind)?;
    if !are_numbers(lanes) {
        return None;
    }
    if !is_product(product) {
        return None;
    }
    if !is_hand(hand) {
        return None;
    }
    let own = name(own)?;
    Some(SalvoItems {
        name: own,
        lanes,
        product,
        hand,
    })
}

/// Whether these items are `none`.
fn is_none(items: &[&[u8]]) -> bool
    ensures { IsTrue result ↔ (texts items.now ≡ codes "none" ∷ []) }
{
    match only(items) {
        Some(item) => is_word(item, "none"),
        None => false,
    }
}

/// Whether these items have the form of a product.
fn is_product(items: &[&[u8]]) -> bool
    ensures { IsTrue result ↔ ((product : Option Placed) × IsProduct Level.Form product (texts items.now)) }
{
    is_none(items) || is_placed(items)
}

/// Whether these items have the form of the hand's place.
fn is_hand(items: &[&[u8]]) -> bool
    ensures { IsTrue result ↔ ((hand : Option Cell) × IsHand Level.Form hand (texts items.now)) }
{
    is_none(items) || is_pair(items)
}

/// The product that these items are.
fn product(alloc: Global, items: &[&[u8]]) -> Result<Option<Placed>, LineError>
    ensures product { ReadsOrErrs (λ level product. IsProduct level product (texts items.now)) result }
    ensures few { IfOk result (λ product. product_count product ≤ 2 ^ 61) }
{
    if is_none(items) {
        return Ok(None);
    }
    let placed = placed(alloc, items)?;
    Ok(Some(placed))
}

/// The place of the hand that these items are.
fn hand_place(items: &[&[u8]]) -> Option<Option<Cell>>
    ensures { Reads (λ hand. IsHand Level.Numbers hand (texts items.now)) result }
{
    if is_none(items) {
        return Some(None);
    }
    let place = pair(items)?;
    Some(Some(place))
}
