//! Salvos that were checked.

ghost use Rattle.std.specs.Prelude.{◌≡◌, ◌+◌, ◌*◌, ◌≤◌, length, IfOk, IfErr, IfSome, IfNone};
ghost use Rattle.life_cells.specs.Cells.{alive, empty};
ghost use Rattle.life_islands.specs.Shapes.{IsShapeOf};
ghost use Rattle.book_parts.specs.Proper.{IsProperSalvo};
ghost use Rattle.recipe_hit.specs.Checked.{IsChecked};
ghost use Rattle.recipe_hit.specs.SalvoRefusals.{SalvoIsRefused};
ghost use Rattle.recipe_hit.specs.declared.limits.TheConstants.{MOST_COUNTED};

use crate::frame::Hit;
use crate::hand::Hand;
use crate::refusal::SalvoRefusal;
use crate::soundness::test_salvo;
use book_parts::RawSalvo;
use life_cells::{Cell, CellSet};
use life_islands::Shape;
use life_steps::Steps;
use std::alloc::Global;
use std::marker::Model;
use std::snapshot::Snapshot;
use std::sync::ledger::Ledger;

/// A sound salvo, with its hits. Contracts see beside it the cells of the hand with which it was checked.
#[derive(Drop)]
pub struct CheckedSalvo {
    raw: RawSalvo,
    hand: Snapshot<CellSet>,
    hits: Vec<Hit>,
    product: Option<(Shape, Cell)>,
}

impl Model for CheckedSalvo {
    ghost use Rattle.recipe_hit.specs.Checked.{Struck, IsKept, coded_struck};

    ghost Value = { Struck };

    ghost coded = { coded_struck };

    ghost view = { λ s. record { raw = s.raw; hand = s.hand.value; hits = s.hits.items } };

    ghost invariant = { λ s. IsKept (record { raw = s.raw; hand = s.hand.value; hits = s.hits.items }) s.product };
}

impl CheckedSalvo {
    /// The salvo as its book states it. It takes no memory.
    pub fn raw(&self) -> &RawSalvo
        ensures raw { result.now ≡ self.now.raw }
        ensures checked { IsChecked self.now }
    {
        &self.raw
    }

    /// Its hits, one a lane, in order. It takes no memory.
    pub fn hits(&self) -> &[Hit]
        ensures hits { result.now ≡ self.now.hits }
        ensures checked { IsChecked self.now }
    {
        &self.hits
    }

    /// The shape of what it builds, and where the top left of its box stands; None where it builds nothing. It takes no memory.
    pub fn product(&self) -> Option<(&Shape, Cell)>
        ensures some { IfSome result (λ p. IsShapeOf (alive self.now.raw.product) (alive p.0.now) p.1) }
        ensures none { IfNone result (self.now.raw.product ≡ empty) }
        ensures checked { IsChecked self.now }
    {
        match &self.product {
            Some((shape, place)) => Some((shape, *place)),
            None => None,
        }
    }

    /// Where it leaves the hand, if it leaves one. It takes no memory.
    pub fn leaves(&self) -> Option<Cell>
        ensures { result ≡ self.now.raw.hand }
    {
        self.raw.hand
    }
}

/// A salvo at a hand, checked by evolving its hits one after the other; it is handed back where it isn't sound. At most 4,097 generations a
/// lane are counted.
///
/// # Errors
/// What fails first: `Empty` or `NotSettled` exactly at the first lane without a hit; `EndDiffers` exactly where the last hit leaves other
/// cells than the product and the hand at its place; `ProductSplit` exactly where the product is more than one island; `HandNear` exactly
/// where the product is within distance 2 of the hand at its place; `Memory` for want of memory.
pub fn check_salvo<L: Ledger>(
    alloc: Global,
    hand: &Hand,
    salvo: RawSalvo,
    steps: &mut Steps<L>,
) -> Result<CheckedSalvo, (RawSalvo, SalvoRefusal)>
    requires salvo { IsProperSalvo salvo }
    ensures raw { IfOk result (λ checked. checked.raw ≡ salvo) }
    ensures hand { IfOk result (λ checked. checked.hand ≡ hand.now) }
    ensures checked { IfOk result (λ checked. IsChecked checked) }
    ensures back { IfErr result (λ e. e.0 ≡ salvo) }
    ensures refusal { IfErr result (λ e. SalvoIsRefused (alive hand.now) salvo e.1) }
    ensures least { steps.old ≤ steps.new }
    ensures most { steps.new ≤ steps.old + MOST_COUNTED * length salvo.lanes }
{
    match test_salvo(alloc, hand.cells(), &salvo, steps) {
        Ok(tested) => Ok(CheckedSalvo {
            raw: salvo,
            hand: Snapshot::of(hand.cells()),
            hits: tested.hits,
            product: tested.product,
        }),
        Err(refusal) => Err((salvo, refusal)),
    }
}
