//! The candidates of which a book has entries.

ghost use Rattle.std.specs.Prelude.{◌++◌, IfOk, OnOk, map};
ghost use Rattle.recipe_turn.specs.Checked.{raws};
ghost use Rattle.recipe_book.specs.Checked.{raw_salvos, said_of};
ghost use Rattle.recipe_find.specs.Adding.{known, lanes_of, delays_of};
ghost use Rattle.recipe_find.specs.Known.{HasJust};

use find_order::Candidate;
use indexmap::IndexSet;
use life_cells::NoMemory;
use recipe_book::CheckedBook;
use recipe_hit::CheckedSalvo;
use recipe_turn::CheckedTurn;
use std::alloc::Global;

/// Adds the lists of lanes of these salvos.
fn add_lanes(candidates: &mut IndexSet<Candidate>, salvos: &[CheckedSalvo]) -> Result<(), NoMemory>
    ensures { OnOk result (HasJust candidates.new.keys (candidates.old.keys ++ map lanes_of (raw_salvos salvos.now))) }
{
    for salvo in salvos {
        candidates.insert(Candidate::Lanes(salvo.raw().lanes.copy()?))?;
    }
    Ok(())
}

/// Adds the kinds and lists of delays of these turns.
fn add_delays(candidates: &mut IndexSet<Candidate>, turns: &[CheckedTurn]) -> Result<(), NoMemory>
    ensures { OnOk result (HasJust candidates.new.keys (candidates.old.keys ++ map delays_of (raws turns.now))) }
{
    for turn in turns {
        let turn = turn.raw();
        candidates.insert(Candidate::Delays {
            kind: turn.kind,
            delays: turn.delays.copy()?,
        })?;
    }
    Ok(())
}

/// The candidates of which a book has entries.
pub(crate) fn known_candidates(
    alloc: Global,
    book: &CheckedBook,
) -> Result<IndexSet<Candidate>, NoMemory>
    ensures { IfOk result (λ candidates. HasJust candidates.keys (known (said_of book.now))) }
{
    let mut candidates = IndexSet::new(alloc);
    add_lanes(&mut candidates, book.salvos())?;
    add_delays(&mut candidates, book.turns())?;
    Ok(candidates)
}
