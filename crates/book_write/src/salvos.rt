//! The lines of the salvos.

ghost use Rattle.std.specs.Prelude.{◌≡◌, ◌++◌, OnOk};
ghost use Rattle.std.specs.List.{AllByRecursion, AllZip};
ghost use Rattle.book_parts.specs.Proper.{IsProperSalvo};
ghost use Rattle.book_write.specs.Laid.{spaced, AppendsLine, AppendsLines};
ghost use Rattle.book_write.specs.Parts.{hand_words, IsSalvoLine};

use crate::bodies::{push_place, push_product};
use crate::words::{begin_line, end_line, push_numbers, push_word};
use book_parts::RawSalvo;
use life_cells::{Cell, NoMemory};
use std::alloc::Global;

/// Appends the place of a hand that is left, or `none`.
fn push_left(text: &mut Vec<u8>, hand: Option<Cell>) -> Result<(), NoMemory>
    ensures { OnOk result (text.new.items ≡ text.old.items ++ spaced (hand_words hand)) }
{
    match hand {
        None => push_word(text, "none"),
        Some(place) => push_place(text, place),
    }
}

/// Appends the line of a salvo.
fn push_salvo(alloc: Global, text: &mut Vec<u8>, salvo: &RawSalvo) -> Result<(), NoMemory>
    requires { IsProperSalvo salvo.now }
    ensures { OnOk result (AppendsLine text.old.items text.new.items (IsSalvoLine salvo.now)) }
{
    begin_line(text, "salvo")?;
    push_word(text, salvo.name.text())?;
    push_word(text, ":")?;
    push_numbers(text, salvo.lanes.items())?;
    push_word(text, ":")?;
    push_product(alloc, text, &salvo.product)?;
    push_word(text, ":")?;
    push_left(text, salvo.hand)?;
    end_line(text)?;
    Ok(())
}

/// Appends the lines of salvos.
pub fn push_salvos(alloc: Global, text: &mut Vec<u8>, salvos: &[RawSalvo]) -> Result<(), NoMemory>
    requires { AllByRecursion IsProperSalvo salvos.now }
    ensures { OnOk result (AppendsLines text.old.items text.new.items (AllZip IsSalvoLine salvos.now)) }
{
    for salvo in salvos {
        push_salvo(alloc, text, salvo)?;
    }
    Ok(())
}
