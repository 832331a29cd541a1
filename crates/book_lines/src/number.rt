//! Numbers in a line.

ghost use Rattle.std.specs.Prelude.{◌≡◌, ◌<◌, ◌^◌, IfSome};
ghost use Rattle.std.specs.Char.{is_ascii_digit};
ghost use Rattle.std.specs.List.{list_all};
ghost use Rattle.rle_items.specs.Numbers.{IsNatural};
ghost use Rattle.book_lines.specs.Values.{IsNumber, IsSmall};
ghost use Rattle.book_lines.specs.Reads.{Reads};

use rle_items::digits::{MOST_DIGITS, number_of};

/// The number that a field spells: an optional '-' and from 1 to 18 digits.
pub fn number(field: &[u8]) -> Option<i64>
    ensures number { Reads (λ z. IsNumber field.now z) result }
    ensures small { IfSome result (λ z. IsSmall z) }
{
    match field {
        [b'-', digits @ ..] => Some(-(natural(digits)? as i64)),
        _ => Some(natural(field)? as i64),
    }
}

/// The number that from 1 to 18 digits spell.
fn natural(digits: &[u8]) -> Option<u64>
    ensures natural { Reads (λ n. IsNatural digits.now n) result }
    ensures small { IfSome result (λ n. n < 10 ^ 18) }
{
    if digits.is_empty() || digits.len() > MOST_DIGITS {
        return None;
    }
    if !are_digits(digits) {
        return None;
    }
    Some(number_of(digits))
}

/// Whether each byte is a digit.
fn are_digits(bytes: &[u8]) -> bool
    ensures { result ≡ list_all is_ascii_digit bytes.now }
{
    bytes.iter().all(|b| b.is_ascii_digit())
}
