//! The place that a line gives.

ghost use Rattle.std.specs.Prelude.{◌≡◌, ℕ, ◌+◌, ◌-◌, ◌*◌, ◌<◌, ◌≤◌, ◌^◌, ℤ, pos, neg_ℤ, List, ◌++◌, ◌∷◌, true, IfSome, IfNone};
ghost use Rattle.std.specs.List.{position};
ghost use Rattle.std.specs.Str.{all_ascii_digits};
ghost use Rattle.life_cells.specs.declared.cell.Cell.{Cell};
ghost use Rattle.rle_items.specs.Numbers.{value, IsDigits, IsWhole};
ghost use Rattle.text_lines.specs.Blanks.{is_blank_byte, words};
ghost use Rattle.life_rle.specs.Text.{IsPlaceWord, IsPlaceIn};
ghost use Rattle.life_rle.specs.Told.{TellsSize, TellsNumber, TellsPlace, is_comma, IsCommaSplit, IsWordSplit, IsOneWord};

use crate::header::skip;
use life_cells::Cell;
use rle_items::digits::split_digits;
use rle_items::reach::FARTHEST;
use text_lines::is_blank_byte;

/// A number with one more digit behind it; one beyond 2^40 stays as it is.
fn with_digit(size: u64, digit: u8) -> u64
    requires digit { 48 ≤ digit }
    requires nine { digit ≤ 57 }
    requires small { size < 2 ^ 45 }
    ensures near { size ≤ 2 ^ 40 → result ≡ size * 10 + (digit - 48) }
    ensures far { 2 ^ 40 < size → result ≡ size }
    ensures bound { result < 2 ^ 45 }
{
    if size > FARTHEST {
        size
    } else {
        size * 10 + u64::from(digit - b'0')
    }
}

/// The number that digits spell. Beyond 2^40 it is only told that it is beyond.
fn size_of(digits: &[u8]) -> u64
    requires { all_ascii_digits digits.now ≡ true }
    ensures told { TellsSize (value digits.now) result }
    ensures small { result < 2 ^ 45 }
{
    let mut size = 0;
    for digit in digits {
        size = with_digit(size, *digit);
    }
    size
}

/// The number that bytes spell, if they are digits.
fn size_spelled(bytes: &[u8]) -> Option<u64>
    ensures some { IfSome result (λ n. IsDigits bytes.now × TellsSize (value bytes.now) n) }
    ensures small { IfSome result (λ n. n < 2 ^ 45) }
    ensures none { IfNone result (¬ IsDigits bytes.now) }
{
    let (digits, rest) = split_digits(bytes);
    if digits.is_empty() {
        return None;
    }
    if rest.is_empty() {
        Some(size_of(digits))
    } else {
        None
    }
}

/// A number as a signed one.
fn plus(size: u64) -> i64
    requires { size < 2 ^ 45 }
    ensures { result ≡ pos size }
{
    size as i64
}

/// A number with a `-`.
fn minus(size: u64) -> i64
    requires { size < 2 ^ 45 }
    ensures { result ≡ neg_ℤ (pos size) }
{
    -(size as i64)
}

/// The whole number that bytes spell, with a `-` or without.
fn number_spelled(bytes: &[u8]) -> Option<i64>
    ensures some { IfSome result (λ n. (z : ℤ) × (IsWhole bytes.now z × TellsNumber z n)) }
    ensures none { IfNone result ((z : ℤ) → IsWhole bytes.now z → ⊥) }
{
    match skip(bytes, b"-") {
        Some(digits) => match size_spelled(digits) {
            Some(size) => Some(minus(size)),
            None => None,
        },
        None => match size_spelled(bytes) {
            Some(size) => Some(plus(size)),
            None => None,
        },
    }
}

/// Where bytes have their first comma.
fn first_comma(bytes: &[u8]) -> Option<usize>
    ensures { result ≡ position is_comma bytes.now }
{
    bytes.iter().position(|b| *b == b',')
}

/// What stands before and behind the first comma.
fn split_comma(bytes: &[u8]) -> Option<(&[u8], &[u8])>
    ensures some { IfSome result (λ parts. IsCommaSplit bytes.now parts.0.now parts.1.now) }
    ensures none { IfNone result ((x y : List ℕ) → IsCommaSplit bytes.now x y → ⊥) }
{
    match first_comma(bytes) {
        Some(at) => Some((&bytes[..at], &bytes[at + 1..])),
        None => None,
    }
}

/// The place that a word `Pos=x,y` gives.
fn place_of(word: &[u8]) -> Option<Cell>
    ensures some { IfSome result (λ c. (place : Cell) × (IsPlaceWord word.now place × TellsPlace place c)) }
    ensures none { IfNone result ((place : Cell) → IsPlaceWord word.now place → ⊥) }
{
    let numbers = skip(word, b"Pos=")?;
    let (x, y) = split_comma(numbers)?;
    let x = number_spelled(x)?;
    let y = number_spelled(y)?;
    Some(Cell::new(x, y))
}

/// Where a line has its first space or tab.
fn first_blank(line: &[u8]) -> Option<usize>
    ensures { result ≡ position is_blank_byte line.now }
{
    line.iter().position(|b| is_blank_byte(*b))
}

/// What stands before and behind the first space or tab.
fn split_word(line: &[u8]) -> Option<(&[u8], &[u8])>
    ensures some { IfSome result (λ parts. IsWordSplit line.now parts.0.now parts.1.now) }
    ensures none { IfNone result (IsOneWord line.now) }
{
    match first_blank(line) {
        Some(at) => Some((&line[..at], &line[at + 1..])),
        None => None,
    }
}

/// The place that the first word `Pos=x,y` of a line gives; (0,0) where it has none.
pub fn place_in(line: &[u8]) -> Cell
    ensures { (place : Cell) × (IsPlaceIn (words line.now) place × TellsPlace place result) }
{
    let mut rest = line;
    'words: while let Some((word, more)) = split_word(rest) {
        if let Some(place) = place_of(word) {
            return place;
        }
        rest = more;
    }
    match place_of(rest) {
        Some(place) => place,
        None => Cell::new(0, 0),
    }
}
