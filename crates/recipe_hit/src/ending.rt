//! What a salvo leaves, against what it states.

ghost use Rattle.std.specs.Prelude.{◌≡◌, ◌↔◌, ◌^◌, IsTrue, IfOk, IfErr, MatchOption};
ghost use Rattle.life_plane.specs.Apart.{Apart};
ghost use Rattle.life_cells.specs.Cells.{alive};
ghost use Rattle.life_cells.specs.Boxes.{IsInRange};
ghost use Rattle.book_parts.specs.Limits.{IsPlaced};
ghost use Rattle.book_parts.specs.Proper.{IsProperPlace};
ghost use Rattle.recipe_hit.specs.Sound.{left_hand, IsWhole};
ghost use Rattle.recipe_hit.specs.Checked.{IsShown};
ghost use Rattle.recipe_hit.specs.SalvoRefusals.{IsFirstNear, EndIsRefused, EndsWell};

use crate::refusal::SalvoRefusal;
use life_cells::{Cell, CellSet, NoMemory};
use life_islands::{Shape, is_one_island, shape_of};
use std::alloc::Global;

/// The hand at the place where a salvo leaves it; no cell where it leaves none.
pub(crate) fn hand_at(
    alloc: Global,
    hand: &CellSet,
    place: Option<Cell>,
) -> Result<CellSet, NoMemory>
    requires hand { IsPlaced (alive hand.now) }
    requires place { IsProperPlace place }
    ensures { IfOk result (λ s. alive s ≡ left_hand (alive hand.now) place) }
{
    match place {
        Some(place) => hand.shift(place.x, place.y),
        None => Ok(CellSet::empty(alloc)),
    }
}

/// Whether a set is one island, or nothing.
pub fn is_whole(alloc: Global, cells: &CellSet) -> Result<bool, NoMemory>
    ensures { IfOk result (λ whole. IsTrue whole ↔ IsWhole (alive cells.now)) }
{
    if cells.is_empty() {
        return Ok(true);
    }
    is_one_island(alloc, cells)
}

/// The first cell of a product within distance 2 of the hand.
fn first_near(product: &CellSet, hand: &CellSet) -> Option<Cell>
    ensures { MatchOption result (Apart (alive product.now) (alive hand.now)) (IsFirstNear (alive product.now) (alive hand.now)) }
{
    for cell in product.cells() {
        if hand.has_close(*cell) {
            return Some(*cell);
        }
    }
    None
}

/// Refuses what is left where it isn't the product and the hand, or where these are not in order.
pub(crate) fn test_end(
    alloc: Global,
    last: &CellSet,
    product: &CellSet,
    hand: &CellSet,
) -> Result<(), SalvoRefusal>
    ensures well { IfOk result (λ _. EndsWell (alive last.now) (alive product.now) (alive hand.now)) }
    ensures refusal { IfErr result (λ e. EndIsRefused (alive last.now) (alive product.now) (alive hand.now) e) }
{
    let stated = product.union(hand)?;
    if let Some(cell) = last.first_difference(&stated) {
        return Err(SalvoRefusal::EndDiffers { cell });
    }
    if !is_whole(alloc, product)? {
        return Err(SalvoRefusal::ProductSplit);
    }
    match first_near(product, hand) {
        Some(cell) => Err(SalvoRefusal::HandNear { cell }),
        None => Ok(()),
    }
}

/// The shape of a product and the top left of its box; None exactly where it has no cell.
pub(crate) fn shown(product: &CellSet) -> Result<Option<(Shape, Cell)>, NoMemory>
    requires { IsPlaced (alive product.now) }
    ensures { IfOk result (λ shown. IsShown product.now shown) }
{
    if product.is_empty() {
        return Ok(None);
    }
    let shape = shape_of(product)?;
    Ok(Some(shape))
}
