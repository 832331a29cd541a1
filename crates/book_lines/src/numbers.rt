//! Items of a line that are numbers.

ghost use Rattle.std.specs.Prelude.{◌≡◌, ◌≢◌, ◌<◌, ℤ, List, ◌↔◌, length, codes, IsTrue, IfOk, IfSome, ◌^◌};
ghost use Rattle.life_cells.specs.declared.cell.Cell.{Cell};
ghost use Rattle.book_lines.specs.Lines.{texts};
ghost use Rattle.book_lines.specs.Values.{Level, IsNumber, IsSmall, AreNumbersAt};
ghost use Rattle.book_lines.specs.Forms.{IsOneNumber, IsPair};
ghost use Rattle.book_lines.specs.Reads.{Reads};

use crate::items::{have_no_colon, may_stand, only, two};
use crate::number::number;
use book_parts::Numbers;
use life_cells::{Cell, NoMemory};
use std::alloc::Global;

/// Whether these items have the form of one number.
pub fn is_one_number(items: &[&[u8]]) -> bool
    ensures { IsTrue result ↔ ((z : ℤ) × IsOneNumber Level.Form z (texts items.now)) }
{
    match only(items) {
        Some(text) => may_stand(text),
        None => false,
    }
}

/// The one number that these items are.
pub fn one_number(items: &[&[u8]]) -> Option<i64>
    ensures { Reads (λ z. IsOneNumber Level.Numbers z (texts items.now)) result }
{
    number(only(items)?)
}

/// Whether these items have the form `X Y`.
pub fn is_pair(items: &[&[u8]]) -> bool
    ensures { IsTrue result ↔ ((c : Cell) × IsPair Level.Form c (texts items.now)) }
{
    match two(items) {
        Some((x, y)) => may_stand(x) && may_stand(y),
        None => false,
    }
}

/// The place that `X Y` are.
pub fn pair(items: &[&[u8]]) -> Option<Cell>
    ensures { Reads (λ c. IsPair Level.Numbers c (texts items.now)) result }
{
    let (x, y) = two(items)?;
    place(x, y)
}

/// The place that X and Y are.
pub fn place(x: &[u8], y: &[u8]) -> Option<Cell>
    ensures place { Reads (λ c. IsNumber x.now c.x × IsNumber y.now c.y) result }
    ensures small { IfSome result (λ c. IsSmall c.x × IsSmall c.y) }
{
    let (x, y) = two_numbers(x, y)?;
    Some(Cell { y, x })
}

/// The two numbers that these items are.
pub fn two_numbers(first: &[u8], second: &[u8]) -> Option<(i64, i64)>
    ensures numbers { Reads (λ p. IsNumber first.now p.0 × IsNumber second.now p.1) result }
    ensures small { IfSome result (λ p. IsSmall p.0 × IsSmall p.1) }
{
    Some((number(first)?, number(second)?))
}

/// Whether these items have the form of one number or more.
pub fn are_numbers(items: &[&[u8]]) -> bool
    ensures { IsTrue result ↔ ((zs : List ℤ) × AreNumbersAt Level.Form (texts items.now) zs) }
{
    !items.is_empty() && have_no_colon(items)
}

/// The numbers that these items are.
pub fn numbers(alloc: Global, items: &[&[u8]]) -> Result<Option<Numbers>, NoMemory>
    requires { 0 < length items.now }
    ensures numbers { IfOk result (λ found. Reads (λ zs. AreNumbersAt Level.Numbers (texts items.now) zs) found) }
    ensures few { IfOk result (λ found. IfSome found (λ zs. length zs < 2 ^ 63)) }
{
    let mut values = Vec::new(alloc);
    for item in items {
        let Some(value) = number(item) else {
            return Ok(None);
        };
        values.push(value)?;
    }
    Ok(Some(Numbers::from_slice(alloc, &values)?))
}
