//! Words of a line.

ghost use Rattle.std.specs.Prelude.{◌≡◌, ◌++◌, ◌∷◌, [], ℕ, map, OnOk};
ghost use Rattle.std.specs.Fmt.{decimal, signed_decimal};
ghost use Rattle.book_write.specs.Laid.{spaced};

use life_cells::NoMemory;
use std::io::Write;

/// Begins a line with a word.
pub fn begin_line(text: &mut Vec<u8>, word: &str) -> Result<(), NoMemory>
    ensures { OnOk result (text.new.items ≡ text.old.items ++ word.now) }
{
    text.extend_from_slice(word.as_bytes())?;
    Ok(())
}

/// Appends a space and a word.
pub fn push_word(text: &mut Vec<u8>, word: &str) -> Result<(), NoMemory>
    ensures { OnOk result (text.new.items ≡ text.old.items ++ spaced (word.now ∷ [])) }
{
    text.push(b' ')?;
    text.extend_from_slice(word.as_bytes())?;
    Ok(())
}

/// Appends a space and a number.
pub fn push_number(text: &mut Vec<u8>, number: i64) -> Result<(), NoMemory>
    ensures { OnOk result (text.new.items ≡ text.old.items ++ spaced (signed_decimal number ∷ [])) }
{
    write!(text, " {number}").map_err(|_| NoMemory)
}

/// Appends a space and a count.
pub fn push_count(text: &mut Vec<u8>, count: u32) -> Result<(), NoMemory>
    ensures { OnOk result (text.new.items ≡ text.old.items ++ spaced (decimal count ∷ [])) }
{
    write!(text, " {count}").map_err(|_| NoMemory)
}

/// Appends numbers, each with a space before it.
pub fn push_numbers(text: &mut Vec<u8>, numbers: &[i64]) -> Result<(), NoMemory>
    ensures { OnOk result (text.new.items ≡ text.old.items ++ spaced (map signed_decimal numbers.now)) }
{
    for number in numbers {
        push_number(text, *number)?;
    }
    Ok(())
}

/// Ends a line.
pub fn end_line(text: &mut Vec<u8>) -> Result<(), NoMemory>
    ensures { OnOk result (text.new.items ≡ text.old.items ++ (10 ∷ [])) }
{
    text.push(b'\n')?;
    Ok(())
}
