//! Laws of commands: their stages are exact, and stages that pass don't refuse.

ghost use Rattle.std.specs.Prelude.{◌≡◌, List, Some};
ghost use Rattle.life_io.specs.Texts.{HeldText};
ghost use Rattle.life_words.specs.declared.command.Command.{Command};
ghost use Rattle.life_cli.specs.Stages.{Pass, Refuse};
ghost use Rattle.life_cli.specs.Exact.{AreExact};
ghost use Rattle.life_cli.specs.Commands.{stages_of};
ghost use Rattle.life_cli.specs.declared.status.Status.{Status};

use crate::status::Status;
use book_read::laws::{books_have_no_refusal, texts_say_one_book};
use build_plan::laws::plans_have_no_stop;
use life_rle::laws::{fine_texts_have_no_refusal, texts_mean_one_plane};
use life_sample::laws::samples_are_one;
use life_target::laws::targets_have_no_refusal;
use recipe_book::laws::{sound_salvos_are_one, sound_turns_are_one, taken_books_have_no_refusal};
use recipe_find::laws::{books_with_room_are_not_refused, extended_books_are_one};
use recipe_hit::laws::salvos_have_one_list_of_hits;

/// Each stage of a command passes with one value at most, and doesn't refuse where it passes.
pub fn stages_are_exact()
    ensures { (texts : List HeldText) (command : Command) → AreExact (stages_of (Some texts) command) }
{
    // These say so of each stage; they do nothing.
    texts_say_one_book();
    books_have_no_refusal();
    texts_mean_one_plane();
    fine_texts_have_no_refusal();
    targets_have_no_refusal();
    sound_turns_are_one();
    sound_salvos_are_one();
    salvos_have_one_list_of_hits();
    taken_books_have_no_refusal();
    extended_books_are_one();
    books_with_room_are_not_refused();
    plans_have_no_stop();
    samples_are_one();
}

/// Where each stage of a command passes, none refuses.
pub fn passing_stages_do_not_refuse()
    ensures { (texts : List HeldText) (command : Command) (status : Status) →
        Pass (stages_of (Some texts) command) → Refuse (stages_of (Some texts) command) status → ⊥ }
{
    // This says that the stages are exact; it does nothing.
    stages_are_exact();
}
