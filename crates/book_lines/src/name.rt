//! Names of entries in a line.

ghost use Rattle.std.specs.Prelude.{◌≡◌, ◌↔◌, codes, IsTrue, IfSome, IfNone};
ghost use Rattle.std.specs.List.{list_all};
ghost use Rattle.book_parts.specs.Limits.{IsName, begins_with_letter, is_name_byte};

use book_parts::limits::LONGEST_NAME;
use std::str;

/// The name that a field is.
pub fn name(field: &[u8]) -> Option<&str>
    ensures some { IfSome result (λ name. (name.now ≡ field.now) × IsName field.now) }
    ensures none { IfNone result (IsName field.now → ⊥) }
{
    if !is_name(field) {
        return None;
    }
    match str::from_utf8(field) {
        Ok(name) => Some(name),
        Err(_) => None,
    }
}

/// Whether a field is a name: from 1 to 32 small letters, digits and `_`, the first a letter, and not `none`.
fn is_name(field: &[u8]) -> bool
    ensures { IsTrue result ↔ IsName field.now }
{
    if !begins_with_letter(field) || field.len() > LONGEST_NAME {
        return false;
    }
    if field == b"none".as_slice() {
        return false;
    }
    are_name_bytes(field)
}

/// Whether the first byte is a small letter.
fn begins_with_letter(field: &[u8]) -> bool
    ensures { result ≡ begins_with_letter field.now }
{
    match field {
        [] => false,
        [first, ..] => first.is_ascii_lowercase(),
    }
}

/// Whether each byte is a small letter, a digit or `_`.
fn are_name_bytes(field: &[u8]) -> bool
    ensures { result ≡ list_all is_name_byte field.now }
{
    field.iter().all(|b| is_name_byte(*b))
}

/// Whether a byte is a small letter, a digit or `_`.
fn is_name_byte(b: u8) -> bool
    ensures { result ≡ is_name_byte b }
{
    b.is_ascii_lowercase() || b.is_ascii_digit() || b == b'_'
}
