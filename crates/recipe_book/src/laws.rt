//! Laws of checked books: the sound entries of a book are one list, so are the verdicts on its entries and the numbers under a shape, and a
//! book whose parts pass their tests has no refusal.

ghost use Rattle.std.specs.Prelude.{◌≡◌, ◌≢◌, ℕ, List};
ghost use Rattle.life_plane.specs.Plane.{Plane, IsStill};
ghost use Rattle.life_cells.specs.Cells.{Cells, alive};
ghost use Rattle.book_parts.specs.declared.settings.Settings.{Settings};
ghost use Rattle.book_parts.specs.declared.kind.RawKind.{RawKind};
ghost use Rattle.book_parts.specs.declared.turn.RawTurn.{RawTurn};
ghost use Rattle.book_parts.specs.declared.salvo.RawSalvo.{RawSalvo};
ghost use Rattle.recipe_turn.specs.Checked.{AreValid};
ghost use Rattle.elbow_graph.specs.States.{HasStates};
ghost use Rattle.recipe_hit.specs.Checked.{Struck};
ghost use Rattle.book_parts.specs.declared.limits.TheConstants.{MOST_STATES};
ghost use Rattle.recipe_book.specs.Entries.{AreTheSound, AreTheSoundSalvos};
ghost use Rattle.recipe_book.specs.Verdicts.{AreVerdicts};
ghost use Rattle.recipe_book.specs.ByShape.{AreNumbersOf};
ghost use Rattle.recipe_book.specs.Refusals.{BookIsRefused};
ghost use Rattle.recipe_book.specs.declared.refusal.BookRefusal.{BookRefusal};
ghost use Rattle.recipe_book.specs.declared.verdict.Verdict.{Verdict};

use crate::refusal::BookRefusal;
use elbow_graph::states_within_are_not_more;
use recipe_hit::laws::{salvos_have_one_refusal, sound_salvos_have_no_refusal};
use recipe_turn::laws::{
    kinds_have_one_refusal, sound_turns_have_no_refusal, turns_have_one_refusal,
    valid_kinds_have_no_refusal,
};

/// The sound turns of a book are one list.
pub fn sound_turns_are_one()
    ensures { (settings : Settings) (kinds : List RawKind) (turns a b : List RawTurn) → AreTheSound settings kinds turns a → AreTheSound settings kinds turns b → a ≡ b }
{}

/// The salvos that are sound at a hand are one list.
pub fn sound_salvos_are_one()
    ensures { (hand : Plane) (salvos a b : List RawSalvo) → AreTheSoundSalvos hand salvos a → AreTheSoundSalvos hand salvos b → a ≡ b }
{}

/// The verdicts on a book's entries are one list.
pub fn verdicts_are_one()
    ensures { (settings : Settings) (kinds : List RawKind) (hand : Plane) (turns : List RawTurn) (salvos : List RawSalvo) (a b : List Verdict) →
        AreVerdicts settings kinds hand turns salvos a → AreVerdicts settings kinds hand turns salvos b → a ≡ b }
{
    // These say that a sound entry has no refusal and that each has one at most; they do nothing.
    sound_turns_have_no_refusal();
    turns_have_one_refusal();
    sound_salvos_have_no_refusal();
    salvos_have_one_refusal();
}

/// The numbers of the salvos that build a shape are one list.
pub fn numbers_under_a_shape_are_one()
    ensures { (salvos : List Struck) (shape : Plane) (a b : List ℕ) → AreNumbersOf salvos shape a → AreNumbersOf salvos shape b → a ≡ b }
{}

/// A book with valid kinds, a still hand and few elbow states has no refusal.
pub fn taken_books_have_no_refusal()
    ensures { (settings : Settings) (hand : Cells) (kinds : List RawKind) (start : ℕ) (turns sound : List RawTurn) (count : ℕ) (e : BookRefusal) →
        AreValid settings kinds → IsStill (alive hand) → AreTheSound settings kinds turns sound → HasStates sound start settings.span MOST_STATES count →
        BookIsRefused settings hand kinds start turns e → e ≡ BookRefusal.Memory }
{
    // These say that valid kinds have no refusal and that few states are not many; they do nothing.
    valid_kinds_have_no_refusal();
    states_within_are_not_more();
}

/// A book has one refusal at most.
pub fn books_have_one_refusal()
    ensures { (settings : Settings) (hand : Cells) (kinds : List RawKind) (start : ℕ) (turns : List RawTurn) (e f : BookRefusal) →
        BookIsRefused settings hand kinds start turns e → BookIsRefused settings hand kinds start turns f
        → e ≢ BookRefusal.Memory → f ≢ BookRefusal.Memory → e ≡ f }
{
    // These say that kinds have one refusal at most, and valid kinds none; they do nothing.
    kinds_have_one_refusal();
    valid_kinds_have_no_refusal();
}
