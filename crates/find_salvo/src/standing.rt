//! Where a hand stands in what is left.

ghost use Rattle.std.specs.Prelude.{◌≡◌, ◌↔◌, ◌^◌, ◌-ℤ◌, ◌+ℤ◌, IsTrue, IfOk, IfSome, IfNone};
ghost use Rattle.life_cells.specs.Boxes.{IsInRange, IsCellInRange};
ghost use Rattle.life_cells.specs.Cells.{alive, cell};
ghost use Rattle.life_islands.specs.Islands.{rest_of};
ghost use Rattle.book_parts.specs.Proper.{IsProperHand};
ghost use Rattle.life_gliders.specs.Beyond.{IsPartOf};
ghost use Rattle.find_salvo.specs.Outcomes.{hand_at, beside_hand, StandsAt, StandsNowhere, IsFirstStand};

use life_cells::{Cell, CellSet, NoMemory};
use recipe_hit::ending::is_whole;
use std::alloc::Global;

/// A hand that stands in what is left.
#[derive(Drop)]
pub(crate) struct Stand {
    /// Where it stands.
    pub place: Cell,
    /// What is left beside it.
    pub rest: CellSet,
}

/// Where the hand stands first in what is left; None exactly where it stands nowhere.
pub(crate) fn first_stand(
    alloc: Global,
    hand: &CellSet,
    left: &CellSet,
) -> Result<Option<Stand>, NoMemory>
    requires hand { IsProperHand (alive hand.now) }
    requires range { IsInRange (2 ^ 40) (alive left.now) }
    ensures some { IfOk result (λ found. IfSome found (λ stand. IsFirstStand (alive hand.now) (alive left.now) stand.place)) }
    ensures rest { IfOk result (λ found. IfSome found (λ stand. alive stand.rest ≡ beside_hand (alive hand.now) (alive left.now) stand.place)) }
    ensures none { IfOk result (λ found. IfNone found (StandsNowhere (alive hand.now) (alive left.now))) }
{
    let Some(first) = hand.get(0) else {
        return Ok(None);
    };
    for cell in left.cells() {
        let place = place_from(first, *cell);
        if let Some(rest) = rest_beside(alloc, hand, left, place)? {
            return Ok(Some(Stand { place, rest }));
        }
    }
    Ok(None)
}

/// The place of the hand at which its first cell comes to another.
fn place_from(first: Cell, to: Cell) -> Cell
    requires first { IsCellInRange (2 ^ 40) first }
    requires to { IsCellInRange (2 ^ 40) to }
    ensures place { result ≡ cell (to.x -ℤ first.x) (to.y -ℤ first.y) }
    ensures near { IsCellInRange (2 ^ 41) result }
{
    Cell::new(to.x - first.x, to.y - first.y)
}

/// What is left beside the hand at a place; None exactly where it doesn't stand there.
fn rest_beside(
    alloc: Global,
    hand: &CellSet,
    left: &CellSet,
    place: Cell,
) -> Result<Option<CellSet>, NoMemory>
    requires hand { IsProperHand (alive hand.now) }
    requires place { IsCellInRange (2 ^ 41) place }
    ensures some { IfOk result (λ found. IfSome found (λ rest. StandsAt (alive hand.now) (alive left.now) place)) }
    ensures rest { IfOk result (λ found. IfSome found (λ rest. alive rest ≡ beside_hand (alive hand.now) (alive left.now) place)) }
    ensures none { IfOk result (λ found. IfNone found (StandsAt (alive hand.now) (alive left.now) place → ⊥)) }
{
    if !lies_in(hand, left, place) {
        return Ok(None);
    }
    let moved = hand.shift(place.x, place.y)?;
    let rest = without(alloc, left, &moved)?;
    if !rest.apart(&moved) {
        return Ok(None);
    }
    if !is_whole(alloc, &rest)? {
        return Ok(None);
    }
    Ok(Some(rest))
}

/// Whether a hand at a place is a part of what is left.
fn lies_in(hand: &CellSet, left: &CellSet, place: Cell) -> bool
    requires hand { IsProperHand (alive hand.now) }
    requires place { IsCellInRange (2 ^ 41) place }
    ensures { IsTrue result ↔ IsPartOf (hand_at (alive hand.now) place) (alive left.now) }
{
    for cell in hand.cells() {
        if !left.contains(moved_to(place, *cell)) {
            return false;
        }
    }
    true
}

/// Where a cell of the hand comes to at a place.
fn moved_to(place: Cell, at: Cell) -> Cell
    requires place { IsCellInRange (2 ^ 41) place }
    requires at { IsCellInRange (2 ^ 41) at }
    ensures { result ≡ cell (at.x +ℤ place.x) (at.y +ℤ place.y) }
{
    Cell::new(at.x + place.x, at.y + place.y)
}

/// The cells of a set that are not in another.
fn without(alloc: Global, cells: &CellSet, other: &CellSet) -> Result<CellSet, NoMemory>
    ensures { IfOk result (λ rest. alive rest ≡ rest_of (alive cells.now) (alive other.now)) }
{
    let rest = cells
        .cells()
        .iter()
        .copied()
        .filter(|cell| !other.contains(*cell))
        .collect(alloc)?;
    Ok(CellSet::from_rising(rest))
}
