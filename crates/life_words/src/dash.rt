//! Words that begin with a dash.

ghost use Rattle.std.specs.Prelude.{◌≡◌};
ghost use Rattle.life_words.specs.Words.{first_dash, has_dash};

/// The place of the first word that begins with a dash, counted from 0.
pub(crate) fn first_dash(words: &[String]) -> Option<usize>
    ensures { result ≡ first_dash words.now }
{
    words.iter().position(|word| has_dash(word.as_bytes()))
}

/// Whether the text begins with a dash.
fn has_dash(text: &[u8]) -> bool
    ensures { result ≡ has_dash text.now }
{
    match text {
        [first, ..] => *first == b'-',
        [] => false,
    }
}
