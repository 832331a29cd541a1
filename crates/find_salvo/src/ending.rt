//! What is left, taken apart.

ghost use Rattle.std.specs.Prelude.{◌^◌, IfOk, IfSome, IfNone};
ghost use Rattle.life_cells.specs.Boxes.{IsInRange};
ghost use Rattle.life_cells.specs.Cells.{alive};
ghost use Rattle.find_salvo.specs.Outcomes.{IsOutcomeOf, HasNoOutcome};

use crate::outcome::Outcome;
use crate::standing::first_stand;
use life_cells::{CellSet, NoMemory};
use recipe_hit::Hand;
use recipe_hit::ending::is_whole;
use std::alloc::Global;

/// The outcome of what is left. With the hand at the first place, by (y,x), where it is a part of that, apart from the rest, which is empty
/// or one island: this rest is the product. Where there is no such place all that is left is the product, with no hand. None exactly where it
/// is then neither empty nor one island.
pub fn outcome_of(alloc: Global, hand: &Hand, left: &CellSet) -> Result<Option<Outcome>, NoMemory>
    requires { IsInRange (2 ^ 40) (alive left.now) }
    ensures some { IfOk result (λ found. IfSome found (IsOutcomeOf (alive hand.now) (alive left.now))) }
    ensures none { IfOk result (λ found. IfNone found (HasNoOutcome (alive hand.now) (alive left.now))) }
{
    if let Some(stand) = first_stand(alloc, hand.cells(), left)? {
        return Ok(Some(Outcome {
            product: stand.rest,
            hand: Some(stand.place),
        }));
    }
    if !is_whole(alloc, left)? {
        return Ok(None);
    }
    Ok(Some(Outcome {
        product: left.copy()?,
        hand: None,
    }))
}
