//! The test of a salvo.

ghost use Rattle.std.specs.Prelude.{◌+◌, ◌*◌, ◌≤◌, length, IfOk, IfErr};
ghost use Rattle.life_cells.specs.Cells.{alive};
ghost use Rattle.book_parts.specs.Proper.{IsProperHand, IsProperSalvo};
ghost use Rattle.recipe_hit.specs.Sound.{IsSound};
ghost use Rattle.recipe_hit.specs.Checked.{AreSmallFrames, IsShown};
ghost use Rattle.recipe_hit.specs.SalvoRefusals.{SalvoIsRefused};
ghost use Rattle.recipe_hit.specs.declared.limits.TheConstants.{MOST_COUNTED};

use crate::ending::{hand_at, shown, test_end};
use crate::frame::Hit;
use crate::in_turn::{left_by, strike_in_turn};
use crate::refusal::SalvoRefusal;
use book_parts::RawSalvo;
use life_cells::{Cell, CellSet};
use life_islands::Shape;
use life_steps::Steps;
use std::alloc::Global;
use std::sync::ledger::Ledger;

/// What the test of a sound salvo shows.
#[derive(Drop)]
pub(crate) struct Tested {
    /// Its hits, one a lane, in order.
    pub hits: Vec<Hit>,
    /// The shape of its product and the top left of its box, if it has a cell.
    pub product: Option<(Shape, Cell)>,
}

/// Refuses a salvo that isn't sound at this hand. At most 4,097 generations a lane are counted.
pub(crate) fn test_salvo<L: Ledger>(
    alloc: Global,
    hand: &CellSet,
    salvo: &RawSalvo,
    steps: &mut Steps<L>,
) -> Result<Tested, SalvoRefusal>
    requires hand { IsProperHand (alive hand.now) }
    requires salvo { IsProperSalvo salvo.now }
    ensures sound { IfOk result (λ tested. IsSound (alive hand.now) salvo.now tested.hits.items) }
    ensures small { IfOk result (λ tested. AreSmallFrames tested.hits.items) }
    ensures shown { IfOk result (λ tested. IsShown salvo.now.product tested.product) }
    ensures refusal { IfErr result (λ e. SalvoIsRefused (alive hand.now) salvo.now e) }
    ensures least { steps.old ≤ steps.new }
    ensures most { steps.new ≤ steps.old + MOST_COUNTED * length salvo.now.lanes }
{
    let hits = strike_in_turn(alloc, hand, salvo.lanes.items(), steps)?;
    let left = hand_at(alloc, hand, salvo.hand)?;
    test_end(alloc, left_by(hand, &hits), &salvo.product, &left)?;
    let product = shown(&salvo.product)?;
    Ok(Tested { hits, product })
}
