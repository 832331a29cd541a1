//! The lines of the turns.

ghost use Rattle.std.specs.Prelude.{◌≡◌, ◌++◌, ◌∷◌, [], length, map, OnOk};
ghost use Rattle.std.specs.Fmt.{signed_decimal};
ghost use Rattle.std.specs.List.{AllByRecursion};
ghost use Rattle.book_parts.specs.Proper.{IsProperEnd, IsProperTurn};
ghost use Rattle.book_write.specs.Laid.{spaced, ended_line, text_of};
ghost use Rattle.book_write.specs.Parts.{step_words, ending_words, turn_words};

use crate::kinds::name_of;
use crate::words::{begin_line, end_line, push_count, push_number, push_numbers, push_word};
use book_parts::{RawKind, RawTurn, TurnEnd};
use life_cells::NoMemory;

/// Appends the words of a next kind: its name, its shift, and the turn's generations.
fn push_step(text: &mut Vec<u8>, kind: &str, shift: i64, n: u32) -> Result<(), NoMemory>
    ensures { OnOk result (text.new.items ≡ text.old.items ++ spaced (step_words kind.now shift n)) }
{
    push_word(text, kind)?;
    push_number(text, shift)?;
    push_count(text, n)
}

/// Appends the lane and the index of a thrown glider.
fn push_glider(text: &mut Vec<u8>, lane: i64, j: i64) -> Result<(), NoMemory>
    ensures { OnOk result (text.new.items ≡ text.old.items ++ spaced (signed_decimal lane ∷ (signed_decimal j ∷ []))) }
{
    push_number(text, lane)?;
    push_number(text, j)
}

/// Appends the words of what a turn leaves.
fn push_ending(text: &mut Vec<u8>, kinds: &[RawKind], end: TurnEnd, n: u32) -> Result<(), NoMemory>
    requires { IsProperEnd (length kinds.now) end }
    ensures { OnOk result (text.new.items ≡ text.old.items ++ spaced (ending_words kinds.now end n)) }
{
    match end {
        TurnEnd::Close => {
            push_word(text, "close")?;
            push_count(text, n)
        }
        TurnEnd::Move { kind, shift } => {
            push_word(text, "move")?;
            push_step(text, name_of(kinds, kind), shift, n)
        }
        TurnEnd::Emit {
            kind,
            shift,
            lane,
            j,
        } => {
            push_word(text, "emit")?;
            push_step(text, name_of(kinds, kind), shift, n)?;
            push_glider(text, lane, j)
        }
    }
}

/// Appends the line of a turn.
fn push_turn(text: &mut Vec<u8>, kinds: &[RawKind], turn: &RawTurn) -> Result<(), NoMemory>
    requires { IsProperTurn (length kinds.now) turn.now }
    ensures { OnOk result (text.new.items ≡ text.old.items ++ ended_line (turn_words kinds.now turn.now)) }
{
    begin_line(text, "turn")?;
    push_word(text, turn.name.text())?;
    push_word(text, name_of(kinds, turn.kind))?;
    push_ending(text, kinds, turn.end, turn.n)?;
    push_word(text, ":")?;
    push_numbers(text, turn.delays.items())?;
    end_line(text)?;
    Ok(())
}

/// Appends the lines of turns.
pub fn push_turns(text: &mut Vec<u8>, kinds: &[RawKind], turns: &[RawTurn]) -> Result<(), NoMemory>
    requires { AllByRecursion (IsProperTurn (length kinds.now)) turns.now }
    ensures { OnOk result (text.new.items ≡ text.old.items ++ text_of (map (turn_words kinds.now) turns.now)) }
{
    for turn in turns {
        push_turn(text, kinds, turn)?;
    }
    Ok(())
}
