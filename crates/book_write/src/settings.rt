//! The lines of the settings.

ghost use Rattle.std.specs.Prelude.{◌≡◌, ◌++◌, OnOk};
ghost use Rattle.book_write.specs.Laid.{ended_line, text_of};
ghost use Rattle.book_read.specs.Stated.{range_numbers};
ghost use Rattle.book_write.specs.Parts.{version_words, setting_line, settings_words};

use crate::words::{begin_line, end_line, push_numbers, push_word};
use book_parts::{Range, Settings};
use book_read::BookWord;
use life_cells::NoMemory;

/// Appends the line of the version.
pub fn push_version(text: &mut Vec<u8>) -> Result<(), NoMemory>
    ensures { OnOk result (text.new.items ≡ text.old.items ++ ended_line version_words) }
{
    begin_line(text, "scbook")?;
    push_word(text, "1")?;
    end_line(text)
}

/// Appends the line of a setting.
fn push_setting(text: &mut Vec<u8>, word: BookWord, numbers: &[i64]) -> Result<(), NoMemory>
    ensures { OnOk result (text.new.items ≡ text.old.items ++ ended_line (setting_line word numbers.now)) }
{
    begin_line(text, word.text())?;
    push_numbers(text, numbers)?;
    end_line(text)?;
    Ok(())
}

/// Appends the line of a setting that is a range.
fn push_range(text: &mut Vec<u8>, word: BookWord, range: Range) -> Result<(), NoMemory>
    ensures { OnOk result (text.new.items ≡ text.old.items ++ ended_line (setting_line word (range_numbers range))) }
{
    push_setting(text, word, &[range.low, range.high, i64::from(range.len)])
}

/// Appends the lines of the settings, but for the hand.
pub fn push_settings(text: &mut Vec<u8>, settings: &Settings) -> Result<(), NoMemory>
    ensures { OnOk result (text.new.items ≡ text.old.items ++ text_of (settings_words settings.now)) }
{
    push_setting(text, BookWord::Approach, &[settings.approach])?;
    push_setting(text, BookWord::Wall, &[settings.wall])?;
    push_setting(text, BookWord::Reach, &[settings.reach])?;
    push_setting(
        text,
        BookWord::Corner,
        &[settings.corner.x, settings.corner.y],
    )?;
    push_setting(text, BookWord::Room, &[settings.room])?;
    push_setting(text, BookWord::Span, &[settings.span])?;
    push_range(text, BookWord::Lanes, settings.lanes)?;
    push_range(text, BookWord::Delays, settings.delays)?;
    Ok(())
}
