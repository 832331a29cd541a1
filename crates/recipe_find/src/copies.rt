//! What a checked book says, copied.

ghost use Rattle.std.specs.Prelude.{◌≡◌, IfOk, map};
ghost use Rattle.recipe_book.specs.Checked.{raw_salvos};
ghost use Rattle.recipe_turn.specs.Checked.{raws};

use book_parts::{RawKind, RawSalvo, RawTurn};
use life_cells::NoMemory;
use recipe_hit::CheckedSalvo;
use recipe_turn::CheckedTurn;
use std::alloc::Global;

/// Copies of kinds.
pub(crate) fn copy_kinds(alloc: Global, kinds: &[RawKind]) -> Result<Vec<RawKind>, NoMemory>
    ensures { IfOk result (λ copies. copies.items ≡ kinds.now) }
{
    let mut copies = Vec::new(alloc);
    for kind in kinds {
        copies.push(RawKind {
            name: kind.name.copy()?,
            cells: kind.cells.copy()?,
        })?;
    }
    Ok(copies)
}

/// Copies of turns, as their book states them.
pub(crate) fn copy_turns(alloc: Global, turns: &[CheckedTurn]) -> Result<Vec<RawTurn>, NoMemory>
    ensures { IfOk result (λ copies. copies.items ≡ raws turns.now) }
{
    let mut copies = Vec::new(alloc);
    for turn in turns {
        let raw = turn.raw();
        copies.push(RawTurn {
            name: raw.name.copy()?,
            kind: raw.kind,
            end: raw.end,
            n: raw.n,
            delays: raw.delays.copy()?,
        })?;
    }
    Ok(copies)
}

/// Copies of salvos, as their book states them.
pub(crate) fn copy_salvos(alloc: Global, salvos: &[CheckedSalvo]) -> Result<Vec<RawSalvo>, NoMemory>
    ensures { IfOk result (λ copies. copies.items ≡ raw_salvos salvos.now) }
{
    let mut copies = Vec::new(alloc);
    for salvo in salvos {
        let raw = salvo.raw();
        copies.push(RawSalvo {
            name: raw.name.copy()?,
            lanes: raw.lanes.copy()?,
            product: raw.product.copy()?,
            hand: raw.hand,
        })?;
    }
    Ok(copies)
}
