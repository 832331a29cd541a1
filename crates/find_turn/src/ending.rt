//! The end of a turn, read off what stands.

ghost use Rattle.std.specs.Prelude.{◌^◌, IfOk, MatchOption};
ghost use Rattle.std.specs.List.{AllByRecursion};
ghost use Rattle.life_cells.specs.Cells.{alive};
ghost use Rattle.life_cells.specs.Boxes.{IsInRange};
ghost use Rattle.book_parts.specs.Limits.{AreProper};
ghost use Rattle.book_parts.specs.Proper.{IsProperKind, HasLife};
ghost use Rattle.recipe_turn.specs.Checked.{AreValid};
ghost use Rattle.find_turn.specs.Standing.{IsFirstEnd, IsNoEnd};

use crate::front::{cells_behind, is_in_front};
use crate::standing::first_standing;
use book_parts::{RawKind, Settings, TurnEnd};
use life_cells::{CellSet, NoMemory};
use life_gliders::find_salvo_glider;
use std::alloc::Global;

/// The first end of a turn that leaves these cells, of which there are some; None exactly where no turn ends with them.
pub(crate) fn end_of(
    alloc: Global,
    settings: &Settings,
    kinds: &[RawKind],
    cells: &CellSet,
) -> Result<Option<TurnEnd>, NoMemory>
    requires settings { AreProper settings.now }
    requires kinds { AllByRecursion IsProperKind kinds.now }
    requires valid { AreValid settings.now kinds.now }
    requires lives { HasLife (alive cells.now) }
    requires range { IsInRange (2 ^ 41) (alive cells.now) }
    ensures { IfOk result (λ found. MatchOption found (IsNoEnd settings.now kinds.now (alive cells.now)) (IsFirstEnd settings.now kinds.now (alive cells.now))) }
{
    let Some((lane, j)) = find_salvo_glider(cells, settings.wall) else {
        let Some((kind, shift)) = first_standing(kinds, cells) else {
            return Ok(None);
        };
        return Ok(Some(TurnEnd::Move { kind, shift }));
    };
    if !is_in_front(settings, lane, j) {
        return Ok(None);
    }
    let elbow = cells_behind(alloc, settings, cells)?;
    let Some((kind, shift)) = first_standing(kinds, &elbow) else {
        return Ok(None);
    };
    Ok(Some(TurnEnd::Emit {
        kind,
        shift,
        lane,
        j,
    }))
}
