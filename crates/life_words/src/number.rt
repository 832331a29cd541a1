//! Words that are numbers.

ghost use Rattle.std.specs.Prelude.{◌≡◌, ◌<◌, ◌+◌, ℕ, length, get_or, map, [], IfOk, IfErr, IfSome, IfNone};
ghost use Rattle.life_words.specs.Words.{Spells, has_plus};

use crate::refusal::WordsError;

/// The most digits of a number.
const MOST_DIGITS: usize = 10;

/// The least and the greatest of the numbers that a word may spell.
#[derive(Clone, Copy, Debug)]
pub struct Limits {
    /// The least.
    pub least: u32,
    /// The greatest.
    pub most: u32,
}

/// The number within limits that a word spells, where it is 1 to 10 digits and no sign.
fn number_of(word: &str, limits: Limits) -> Option<u32>
    ensures some { IfSome result (λ n. Spells limits word.now n) }
    ensures none { IfNone result ((n : ℕ) → Spells limits word.now n → ⊥) }
{
    if word.len() > MOST_DIGITS || has_plus(word.as_bytes()) {
        return None;
    }
    match word.parse::<u32>() {
        Ok(number) if limits.least <= number && number <= limits.most => Some(number),
        _ => None,
    }
}

/// Whether the text begins with a plus, which a number may not.
fn has_plus(text: &[u8]) -> bool
    ensures { result ≡ has_plus text.now }
{
    match text {
        [first, ..] => *first == b'+',
        [] => false,
    }
}

/// The number that one of the words behind a command's own spells; the first of them has the index 0 and the place 2.
///
/// # Errors
/// `BadNumber` with the word's place, where it spells none within the limits.
pub(crate) fn number_at(values: &[&str], index: usize, limits: Limits) -> Result<u32, WordsError>
    requires { index < length values.now }
    ensures ok { IfOk result (λ n. Spells limits (get_or (map (λ v. v.now) values.now) index []) n) }
    ensures err { IfErr result (λ e. (e ≡ WordsError.BadNumber (index + 2)) × ((n : ℕ) → Spells limits (get_or (map (λ v. v.now) values.now) index []) n → ⊥)) }
{
    match number_of(values[index], limits) {
        Some(number) => Ok(number),
        None => Err(WordsError::BadNumber { place: index + 2 }),
    }
}
