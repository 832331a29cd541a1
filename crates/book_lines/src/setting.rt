//! The lines of settings: a word, and as many numbers as it has limits.

ghost use Rattle.std.specs.Prelude.{◌≡◌, ◌↔◌, IsTrue};
ghost use Rattle.book_lines.specs.declared.statement.SettingLine.{SettingLine};
ghost use Rattle.book_lines.specs.Lines.{texts};
ghost use Rattle.book_lines.specs.Values.{Level};
ghost use Rattle.book_lines.specs.Forms.{AreInOrder, KeepsOrder, IsSettingLine};
ghost use Rattle.book_lines.specs.Reads.{ReadsOrErrs};

use crate::book_word::BookWord;
use crate::fault::{LineError, LineFault};
use crate::items::three;
use crate::number::number;
use crate::numbers::{are_numbers, numbers};
use crate::statement::SettingLine;
use std::alloc::Global;

/// What the line of a setting states.
pub fn setting(alloc: Global, word: BookWord, items: &[&[u8]]) -> Result<SettingLine, LineError>
    ensures { ReadsOrErrs (λ level setting. (setting.word ≡ word) × IsSettingLine level setting (texts items.now)) result }
{
    if !is_setting(word, items) {
        return Err(LineError::Fault(LineFault::Form));
    }
    let Some(numbers) = numbers(alloc, items)? else {
        return Err(LineError::Fault(LineFault::Number));
    };
    Ok(SettingLine { word, numbers })
}

/// Whether these items have the form of a setting's numbers.
fn is_setting(word: BookWord, items: &[&[u8]]) -> bool
    ensures { IsTrue result ↔ ((setting : SettingLine) × ((setting.word ≡ word) × IsSettingLine Level.Form setting (texts items.now))) }
{
    if items.len() != word.limits().len() {
        return false;
    }
    are_numbers(items) && keeps_order(items)
}

/// Whether LOW does not pass HIGH, where the items are `LOW HIGH LEN`.
fn keeps_order(items: &[&[u8]]) -> bool
    ensures { IsTrue result ↔ KeepsOrder (texts items.now) }
{
    match three(items) {
        Some((low, high, _)) => are_in_order(low, high),
        None => true,
    }
}

/// Whether LOW does not pass HIGH, where both are numbers.
fn are_in_order(low: &[u8], high: &[u8]) -> bool
    ensures { IsTrue result ↔ AreInOrder low.now high.now }
{
    match number(low) {
        Some(low) => match number(high) {
            Some(high) => low <= high,
            None => true,
        },
        None => true,
    }
}
