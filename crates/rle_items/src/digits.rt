//! Numbers at the front of bytes.

ghost use Rattle.std.specs.Prelude.{◌≡◌, ◌<◌, ◌≤◌, ◌^◌, ◌⊎◌, true, not, length, IfSome, IfNone};
ghost use Rattle.std.specs.Char.{is_ascii_digit};
ghost use Rattle.std.specs.List.{position};
ghost use Rattle.std.specs.Str.{all_ascii_digits};
ghost use Rattle.rle_items.specs.Numbers.{value};
ghost use Rattle.rle_items.specs.Spelling.{IsCount};
ghost use Rattle.rle_items.specs.Gaps.{IsAtCount};

/// The most digits that a number has.
pub const MOST_DIGITS: usize = 18;

/// Where bytes have their first byte that is no digit.
fn first_other(bytes: &[u8]) -> Option<usize>
    ensures { result ≡ position (λ b. not (is_ascii_digit b)) bytes.now }
{
    bytes.iter().position(|b| !b.is_ascii_digit())
}

/// The digits that bytes begin with, and what follows them.
pub fn split_digits(bytes: &[u8]) -> (&[u8], &[u8])
    ensures { IsAtCount bytes.now result.0.now result.1.now }
{
    match first_other(bytes) {
        Some(many) => bytes.split_at(many),
        None => bytes.split_at(bytes.len()),
    }
}

/// The number that digits spell.
pub fn number_of(digits: &[u8]) -> u64
    requires digits { all_ascii_digits digits.now ≡ true }
    requires short { length digits.now ≤ 18 }
    ensures value { result ≡ value digits.now }
    ensures small { result < 10 ^ 18 }
{
    let mut number = 0;
    for digit in digits {
        number = number * 10 + u64::from(*digit - b'0');
    }
    number
}

/// The count that digits spell, which is 1 for none. None where they are more than 18 or spell zero.
pub fn count_of(digits: &[u8]) -> Option<u64>
    requires { all_ascii_digits digits.now ≡ true }
    ensures count { IfSome result (λ n. IsCount digits.now n) }
    ensures small { IfSome result (λ n. n < 10 ^ 18) }
    ensures some { IfNone result (0 < length digits.now) }
    ensures bad { IfNone result ((value digits.now ≡ 0) ⊎ (18 < length digits.now)) }
{
    if digits.is_empty() {
        return Some(1);
    }
    if digits.len() > MOST_DIGITS {
        return None;
    }
    let number = number_of(digits);
    if number == 0 { None } else { Some(number) }
}
