//! The items of a line: the words behind its first.

ghost use Rattle.std.specs.Prelude.{◌≡◌, ◌≢◌, ◌++◌, ℕ, List, [], ◌∷◌, ◌↔◌, codes, IsTrue, MatchOption};
ghost use Rattle.std.specs.List.{AllByRecursion};
ghost use Rattle.book_lines.specs.Lines.{texts, HaveNoColon};

/// The one item.
pub fn only<'a>(items: &[&'a [u8]]) -> Option<&'a [u8]>
    ensures { MatchOption result ((t : List ℕ) → texts items.now ≢ t ∷ []) (λ t. texts items.now ≡ t.now ∷ []) }
{
    match items {
        [item] => Some(*item),
        _ => None,
    }
}

/// The two items.
pub fn two<'a>(items: &[&'a [u8]]) -> Option<(&'a [u8], &'a [u8])>
    ensures { MatchOption result ((t u : List ℕ) → texts items.now ≢ t ∷ (u ∷ [])) (λ p. texts items.now ≡ p.0.now ∷ (p.1.now ∷ [])) }
{
    match items {
        [first, second] => Some((*first, *second)),
        _ => None,
    }
}

/// The three items.
pub fn three<'a>(items: &[&'a [u8]]) -> Option<(&'a [u8], &'a [u8], &'a [u8])>
    ensures { MatchOption result ((t u v : List ℕ) → texts items.now ≢ t ∷ (u ∷ (v ∷ []))) (λ p. texts items.now ≡ p.0.now ∷ (p.1.now ∷ (p.2.now ∷ []))) }
{
    match items {
        [first, second, third] => Some((*first, *second, *third)),
        _ => None,
    }
}

/// The first item, and those behind it.
pub fn first<'a, 'b>(items: &'b [&'a [u8]]) -> Option<(&'a [u8], &'b [&'a [u8]])>
    ensures { MatchOption result ((t : List ℕ) (ts : List (List ℕ)) → texts items.now ≢ t ∷ ts) (λ p. texts items.now ≡ p.0.now ∷ texts p.1.now) }
{
    match items {
        [first, behind @ ..] => Some((*first, behind)),
        [] => None,
    }
}

/// The items before the first `:`, and those behind it.
pub fn split_colon<'a, 'b>(items: &'b [&'a [u8]]) -> Option<(&'b [&'a [u8]], &'b [&'a [u8]])>
    ensures some { MatchOption result ((ts us : List (List ℕ)) → texts items.now ≢ ts ++ (codes ":" ∷ us)) (λ p. (texts items.now ≡ texts p.0.now ++ (codes ":" ∷ texts p.1.now)) × HaveNoColon (texts p.0.now)) }
{
    for (index, item) in items.iter().enumerate() {
        if is_colon(item) {
            return Some((&items[..index], &items[index + 1..]));
        }
    }
    None
}

/// Whether each of these items may stand for a number: none is `:`.
pub fn have_no_colon(items: &[&[u8]]) -> bool
    ensures { IsTrue result ↔ HaveNoColon (texts items.now) }
{
    for item in items {
        if !may_stand(item) {
            return false;
        }
    }
    true
}

/// Whether an item may stand for a number or a body: it is not `:`.
pub fn may_stand(item: &[u8]) -> bool
    ensures { IsTrue result ↔ (item.now ≢ codes ":") }
{
    !is_colon(item)
}

/// Whether an item is this word.
pub fn is_word(item: &[u8], word: &str) -> bool
    ensures { IsTrue result ↔ (item.now ≡ word.now) }
{
    item == word.as_bytes()
}

/// Whether an item is `:`.
fn is_colon(item: &[u8]) -> bool
    ensures { IsTrue result ↔ (item.now ≡ codes ":") }
{
    item == b":".as_slice()
}
