//! The lines of the hand, the kinds and the start.

ghost use Rattle.std.specs.Prelude.{◌≡◌, ◌++◌, length, OnOk};
ghost use Rattle.std.specs.List.{AllByRecursion, AllZip};
ghost use Rattle.life_cells.specs.Cells.{alive};
ghost use Rattle.book_parts.specs.Proper.{IsKindNumber, IsProperHand, IsProperKind};
ghost use Rattle.book_write.specs.Laid.{ended_line, AppendsLine, AppendsLines};
ghost use Rattle.book_write.specs.Parts.{IsHandLine, IsKindLine, kind_name, start_words};

use crate::bodies::{push_body, push_product};
use crate::words::{begin_line, end_line, push_word};
use book_parts::RawKind;
use life_cells::{CellSet, NoMemory};
use std::alloc::Global;

/// Appends the line of the hand, as it lies.
pub fn push_hand(alloc: Global, text: &mut Vec<u8>, hand: &CellSet) -> Result<(), NoMemory>
    requires { IsProperHand (alive hand.now) }
    ensures { OnOk result (AppendsLine text.old.items text.new.items (IsHandLine hand.now)) }
{
    begin_line(text, "hand")?;
    push_body(alloc, text, hand)?;
    end_line(text)?;
    Ok(())
}

/// Appends the line of a kind.
fn push_kind(alloc: Global, text: &mut Vec<u8>, kind: &RawKind) -> Result<(), NoMemory>
    requires { IsProperKind kind.now }
    ensures { OnOk result (AppendsLine text.old.items text.new.items (IsKindLine kind.now)) }
{
    begin_line(text, "elbow")?;
    push_word(text, kind.name.text())?;
    push_product(alloc, text, &kind.cells)?;
    end_line(text)?;
    Ok(())
}

/// Appends the lines of kinds.
pub fn push_kinds(alloc: Global, text: &mut Vec<u8>, kinds: &[RawKind]) -> Result<(), NoMemory>
    requires { AllByRecursion IsProperKind kinds.now }
    ensures { OnOk result (AppendsLines text.old.items text.new.items (AllZip IsKindLine kinds.now)) }
{
    for kind in kinds {
        push_kind(alloc, text, kind)?;
    }
    Ok(())
}

/// The name of the kind with this number, counted from 1.
pub fn name_of(kinds: &[RawKind], number: usize) -> &str
    requires { IsKindNumber (length kinds.now) number }
    ensures { result.now ≡ kind_name kinds.now number }
{
    kinds[number - 1].name.text()
}

/// Appends the line of the kind that the stream begins at.
pub fn push_start(text: &mut Vec<u8>, kinds: &[RawKind], start: usize) -> Result<(), NoMemory>
    requires { IsKindNumber (length kinds.now) start }
    ensures { OnOk result (text.new.items ≡ text.old.items ++ ended_line (start_words kinds.now start)) }
{
    begin_line(text, "start")?;
    push_word(text, name_of(kinds, start))?;
    end_line(text)?;
    Ok(())
}
