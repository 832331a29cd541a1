//! Laws of words: they ask for one command at most and aren't refused then, or else have one refusal at most.

ghost use Rattle.std.specs.Prelude.{◌≡◌};
ghost use Rattle.life_words.specs.Words.{Words, Ask, AreRefused};
ghost use Rattle.life_words.specs.declared.command.Command.{Command};
ghost use Rattle.life_words.specs.declared.refusal.WordsError.{WordsError};

/// Words ask for one command at most.
pub fn words_ask_for_one_command()
    ensures { (words : Words) (a b : Command) → Ask words a → Ask words b → a ≡ b }
{}

/// Words have one refusal at most.
pub fn words_have_one_refusal()
    ensures { (words : Words) (e f : WordsError) → AreRefused words e → AreRefused words f → e ≡ f }
{}

/// Words that ask for a command are not refused.
pub fn asking_words_are_not_refused()
    ensures { (words : Words) (command : Command) (e : WordsError) → Ask words command → AreRefused words e → ⊥ }
{}
