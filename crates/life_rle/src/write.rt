//! The canonical texts of a pattern and of a body.

ghost use Rattle.std.specs.Prelude.{◌≡◌, ◌++◌, ◌^◌, ◌<◌, ◌≢◌, ℕ, List, OnOk, OnErr, IfOk};
ghost use Rattle.std.specs.Option.{option_copied};
ghost use Rattle.std.specs.String.{string_bytes};
ghost use Rattle.rle_items.specs.Words.{IsNotNegative, WordMeans};
ghost use Rattle.life_cells.specs.Cells.{alive};
ghost use Rattle.life_cells.specs.Boxes.{IsInRange};
ghost use Rattle.life_rle.specs.Text.{Means};
ghost use Rattle.life_rle.specs.Written.{IsRleText, IsBodyText, Appends, HasNoLineBreak};

use crate::drawing::items_of;
use crate::head::{frame_of, push_head};
use crate::lines::push_items;
use crate::pattern::Pattern;
use life_cells::{CellSet, NoMemory};
use std::alloc::Global;

/// The canonical text of a set.
fn text_of(alloc: Global, cells: &CellSet, note: Option<&str>) -> Result<String, NoMemory>
    requires range { IsInRange (2 ^ 58) (alive cells.now) }
    requires note { HasNoLineBreak (option_copied note) }
    ensures ok { IfOk result (λ text. IsRleText (alive cells.now) (option_copied note.entry) (string_bytes text)) }
    ensures read_back { IfOk result (λ text. Means (string_bytes text) (alive cells.now)) }
{
    let frame = frame_of(cells);
    let items = items_of(alloc, cells.cells(), frame.place.x, frame.place.y)?;
    let mut text = String::new(alloc);
    push_head(&mut text, frame, note)?;
    push_items(alloc, &items, &mut text)?;
    text.push('\n')?;
    Ok(text)
}

/// Appends the canonical text of a pattern, with a note in a comment or without.
///
/// The note has no line break, and coordinates are from -2^58 to 2^58.
///
/// # Errors
///
/// `NoMemory` where there is no memory for the text; `into` is then as before.
pub fn write_rle(
    alloc: Global,
    pattern: &Pattern,
    note: Option<&str>,
    into: &mut Vec<u8>,
) -> Result<(), NoMemory>
    requires range { IsInRange (2 ^ 58) (alive pattern.now.cells) }
    requires note { HasNoLineBreak (option_copied note) }
    ensures ok { OnOk result (Appends into.old.items into.new.items (IsRleText (alive pattern.now.cells) (option_copied note.entry))) }
    ensures read_back { OnOk result (Appends into.old.items into.new.items (λ text. Means text (alive pattern.now.cells))) }
    ensures err { OnErr result (into.new.items ≡ into.old.items) }
{
    let text = text_of(alloc, &pattern.cells, note)?;
    into.extend_from_slice(text.as_bytes())?;
    Ok(())
}

/// The canonical body word of a set.
fn word_of(alloc: Global, cells: &CellSet) -> Result<String, NoMemory>
    requires range { IsInRange (2 ^ 58) (alive cells.now) }
    requires quadrant { IsNotNegative (alive cells.now) }
    ensures ok { IfOk result (λ word. IsBodyText (alive cells.now) (string_bytes word)) }
    ensures read_back { IfOk result (λ word. WordMeans (string_bytes word) (alive cells.now)) }
{
    let items = items_of(alloc, cells.cells(), 0, 0)?;
    let mut word = String::new(alloc);
    for item in &items {
        write!(word, "{item}")?;
    }
    word.push('!')?;
    Ok(word)
}

/// Appends the canonical body word of a set with no negative coordinate.
///
/// Coordinates are at most 2^58.
///
/// # Errors
///
/// `NoMemory` where there is no memory for the word; `into` is then as before.
pub fn write_body(alloc: Global, cells: &CellSet, into: &mut Vec<u8>) -> Result<(), NoMemory>
    requires range { IsInRange (2 ^ 58) (alive cells.now) }
    requires quadrant { IsNotNegative (alive cells.now) }
    ensures ok { OnOk result (Appends into.old.items into.new.items (IsBodyText (alive cells.now))) }
    ensures read_back { OnOk result (Appends into.old.items into.new.items (λ text. WordMeans text (alive cells.now))) }
    ensures err { OnErr result (into.new.items ≡ into.old.items) }
{
    let word = word_of(alloc, cells)?;
    into.extend_from_slice(word.as_bytes())?;
    Ok(())
}
