//! The header of a text: `x = m, y = n`, and optionally `, rule = R`.

ghost use Rattle.std.specs.Prelude.{◌≡◌, ℕ, ◌↔◌, ◌++◌, not, map, List, IsTrue, IfOk, IfErr, IfSome, IfNone};
ghost use Rattle.std.specs.List.{position};
ghost use Rattle.std.specs.Char.{to_ascii_lowercase};
ghost use Rattle.text_lines.specs.Blanks.{is_blank_byte};
ghost use Rattle.life_rle.specs.Header.{IsPast, IsPastNumber, IsPastValue, BeginsWithSize, GivesRule, IsHeader, NamesLife};
ghost use Rattle.life_rle.specs.HeaderRead.{IsPastBlanks, BeginsInked, IsWordOf, HasForm, HeaderIsRefused};

use crate::error::RleError;
use rle_items::digits::{MOST_DIGITS, split_digits};
use text_lines::{is_blank, is_blank_byte};

/// What a line is as a header.
#[derive(Clone, Copy)]
pub enum Form {
    /// The header of a pattern of Life.
    Life,
    /// A header that names another rule.
    OtherRule,
    /// No header.
    OtherForm,
}

/// What follows a word at the front of bytes.
pub fn skip<'a>(bytes: &'a [u8], word: &[u8]) -> Option<&'a [u8]>
    ensures some { IfSome result (λ rest. bytes.now ≡ word.now ++ rest.now) }
    ensures none { IfNone result ((rest : List ℕ) → bytes.now ≡ word.now ++ rest → ⊥) }
{
    bytes.strip_prefix(word)
}

/// Where a line has its first byte that is no blank.
fn first_ink(line: &[u8]) -> Option<usize>
    ensures { result ≡ position (λ b. not (is_blank_byte b)) line.now }
{
    line.iter().position(|b| !is_blank_byte(*b))
}

/// A line without the blanks at its front.
fn skip_blanks(line: &[u8]) -> &[u8]
    ensures { IsPastBlanks line.now result.now }
{
    match first_ink(line) {
        Some(many) => line.split_at(many).1,
        None => line.split_at(line.len()).1,
    }
}

/// What follows a part of the header, which may stand behind blanks.
fn skip_part<'a>(line: &'a [u8], part: &[u8]) -> Option<&'a [u8]>
    requires { BeginsInked part.now }
    ensures some { IfSome result (λ rest. IsPast part.now line.now rest.now) }
    ensures none { IfNone result ((rest : List ℕ) → IsPast part.now line.now rest → ⊥) }
{
    skip(skip_blanks(line), part)
}

/// What follows a number of 1 to 18 digits, which may stand behind blanks.
fn skip_number(line: &[u8]) -> Option<&[u8]>
    ensures some { IfSome result (λ rest. IsPastNumber line.now rest.now) }
    ensures none { IfNone result ((rest : List ℕ) → IsPastNumber line.now rest → ⊥) }
{
    let (digits, rest) = split_digits(skip_blanks(line));
    if digits.is_empty() || digits.len() > MOST_DIGITS {
        None
    } else {
        Some(rest)
    }
}

/// What follows `=` and a number.
fn skip_value(line: &[u8]) -> Option<&[u8]>
    ensures some { IfSome result (λ rest. IsPastValue line.now rest.now) }
    ensures none { IfNone result ((rest : List ℕ) → IsPastValue line.now rest → ⊥) }
{
    skip_number(skip_part(line, b"=")?)
}

/// What follows `x = m, y = n` at the front of a line.
fn behind_size(line: &[u8]) -> Option<&[u8]>
    ensures some { IfSome result (λ rest. BeginsWithSize line.now rest.now) }
    ensures none { IfNone result ((rest : List ℕ) → BeginsWithSize line.now rest → ⊥) }
{
    let behind_x = skip(line, b"x")?;
    let behind_width = skip_value(behind_x)?;
    let behind_comma = skip_part(behind_width, b",")?;
    let behind_y = skip_part(behind_comma, b"y")?;
    skip_value(behind_y)
}

/// The name of the rule in what follows the size, with the blanks at its ends.
fn rule_in(text: &[u8]) -> Option<&[u8]>
    ensures some { IfSome result (λ name. GivesRule text.now name.now) }
    ensures none { IfNone result ((name : List ℕ) → GivesRule text.now name → ⊥) }
{
    let behind_comma = skip_part(text, b",")?;
    let behind_rule = skip_part(behind_comma, b"rule")?;
    skip_part(behind_rule, b"=")
}

/// Whether bytes are a word in any case of letters, and then blanks.
fn is_word(bytes: &[u8], word: &[u8]) -> bool
    requires { map to_ascii_lowercase word.now ≡ word.now }
    ensures { IsTrue result ↔ IsWordOf word.now bytes.now }
{
    match bytes.split_at_checked(word.len()) {
        Some((name, gap)) => name.eq_ignore_ascii_case(word) && is_blank(gap),
        None => false,
    }
}

/// Whether a rule's name is one of those of Conway's rule, with blanks at its ends or without.
fn names_life(rule: &[u8]) -> bool
    ensures { IsTrue result ↔ NamesLife rule.now }
{
    let name = skip_blanks(rule);
    is_word(name, b"b3/s23") || is_word(name, b"23/3") || is_word(name, b"life")
}

/// What a line is as a header.
fn form_of(line: &[u8]) -> Form
    ensures { HasForm line.now result }
{
    let Some(rest) = behind_size(line) else {
        return Form::OtherForm;
    };
    if rest.is_empty() {
        return Form::Life;
    }
    match rule_in(rest) {
        Some(name) if names_life(name) => Form::Life,
        Some(_) => Form::OtherRule,
        None => Form::OtherForm,
    }
}

/// Refuses a line that is no header, and a header of another rule. The line has this number.
pub fn check_header(line: &[u8], number: u64) -> Result<(), RleError>
    ensures ok { IfOk result (λ _. IsHeader line.now) }
    ensures err { IfErr result (λ e. HeaderIsRefused line.now number e) }
{
    match form_of(line) {
        Form::Life => Ok(()),
        Form::OtherRule => Err(RleError::BadRule { line: number }),
        Form::OtherForm => Err(RleError::BadHeader { line: number }),
    }
}
