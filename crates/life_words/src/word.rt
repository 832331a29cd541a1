//! Words that stand for texts.

ghost use Rattle.std.specs.Prelude.{◌≡◌, IfOk, IfErr, List, ℕ, string_bytes};
ghost use Rattle.std.specs.Coded.{coded_ℕ, coded_list};

use crate::refusal::WordsError;
use std::alloc::Global;
use std::marker::Model;

/// A word of the command line, seen as its bytes.
#[derive(Debug, Drop)]
pub struct Word {
    text: String,
}

impl Model for Word {
    ghost Value = { List ℕ };

    ghost coded = { coded_list coded_ℕ };

    ghost view = { λ w. string_bytes w.text };
}

impl Word {
    /// The word with these bytes.
    ///
    /// # Errors
    /// `Memory` alone.
    pub fn from_text(alloc: Global, text: &str) -> Result<Self, WordsError>
        ensures ok { IfOk result (λ word. word ≡ text.now) }
        ensures err { IfErr result (λ e. e ≡ WordsError.Memory) }
    {
        let text = String::from_str(alloc, text)?;
        Ok(Word { text })
    }

    /// The word's text. It takes no memory.
    pub fn text(&self) -> &str
        ensures { result.now ≡ self.now }
    {
        self.text.as_str()
    }
}
