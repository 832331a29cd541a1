//! A book's turns and salvos by their numbers.

ghost use Rattle.std.specs.Prelude.{ℕ, ◌≤◌, length};
ghost use Rattle.book_parts.specs.declared.limits.TheConstants.{MOST_TURNS, MOST_SALVOS};
ghost use Rattle.book_parts.specs.declared.turn.RawTurn.{RawTurn};
ghost use Rattle.book_parts.specs.Proper.{IsProperTurn};
ghost use Rattle.elbow_graph.specs.Numbered.{IsNumbered};
ghost use Rattle.recipe_turn.specs.Checked.{raws};
ghost use Rattle.recipe_hit.specs.Checked.{Struck};

use book_parts::RawTurn;
use recipe_hit::CheckedSalvo;
use recipe_turn::CheckedTurn;

/// The turn with this number, counted from 1.
pub fn turn_at(turns: &[CheckedTurn], number: usize) -> &RawTurn
    requires few { length turns.now ≤ MOST_TURNS }
    requires numbered { (turn : RawTurn) × IsNumbered (raws turns.now) number turn }
    ensures turn { IsNumbered (raws turns.now) number result.now }
    ensures proper { (kinds : ℕ) × IsProperTurn kinds result.now }
{
    let turn = &turns[number - 1];
    turn.raw()
}

/// The salvo with this number, counted from 1.
pub fn salvo_at(salvos: &[CheckedSalvo], number: usize) -> &CheckedSalvo
    requires few { length salvos.now ≤ MOST_SALVOS }
    requires numbered { (salvo : Struck) × IsNumbered salvos.now number salvo }
    ensures { IsNumbered salvos.now number result.now }
{
    &salvos[number - 1]
}
