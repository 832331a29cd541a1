//! The lines before the items.

ghost use Rattle.std.specs.Prelude.{◌≡◌, ◌++◌, ◌<◌, ◌^◌, OnOk};
ghost use Rattle.std.specs.String.{string_bytes};
ghost use Rattle.std.specs.Option.{option_copied};
ghost use Rattle.life_cells.specs.Cells.{alive};
ghost use Rattle.life_cells.specs.Boxes.{IsInRange};
ghost use Rattle.life_rle.specs.Written.{IsFrame, place_line, note_line, header_line};
ghost use Rattle.life_rle.specs.Drawn.{IsSmallFrame};

use life_cells::{Cell, CellSet, NoMemory};

/// Where the box of a pattern has its top left, and its size.
#[derive(Clone, Copy)]
pub struct Frame {
    /// The top left cell.
    pub place: Cell,
    /// How many columns the box has.
    pub width: u64,
    /// How many rows the box has.
    pub height: u64,
}

/// The frame of the live cells; at (0,0) and without a size where there are none.
pub fn frame_of(cells: &CellSet) -> Frame
    requires { IsInRange (2 ^ 58) (alive cells.now) }
    ensures frame { IsFrame (alive cells.now) result.place result.width result.height }
    ensures small { IsSmallFrame result.place result.width result.height }
{
    match cells.bounds() {
        None => Frame {
            place: Cell::new(0, 0),
            width: 0,
            height: 0,
        },
        Some(bounds) => Frame {
            place: Cell::new(bounds.left, bounds.top),
            width: (bounds.right - bounds.left) as u64 + 1,
            height: (bounds.bottom - bounds.top) as u64 + 1,
        },
    }
}

/// Appends the line of the place.
fn push_place(text: &mut String, place: Cell) -> Result<(), NoMemory>
    ensures { OnOk result (string_bytes text.new ≡ string_bytes text.old ++ place_line place) }
{
    let x = place.x;
    let y = place.y;
    write!(text, "#CXRLE Pos={x},{y}\n")?;
    Ok(())
}

/// Appends the line of the note, if there is one.
fn push_note(text: &mut String, note: Option<&str>) -> Result<(), NoMemory>
    ensures { OnOk result (string_bytes text.new ≡ string_bytes text.old ++ note_line (option_copied note.entry)) }
{
    if let Some(note) = note {
        write!(text, "#C {note}\n")?;
    }
    Ok(())
}

/// Appends the line of the size and the rule.
fn push_header(text: &mut String, width: u64, height: u64) -> Result<(), NoMemory>
    ensures { OnOk result (string_bytes text.new ≡ string_bytes text.old ++ header_line width height) }
{
    write!(text, "x = {width}, y = {height}, rule = B3/S23\n")?;
    Ok(())
}

/// Appends the lines before the items.
pub fn push_head(text: &mut String, frame: Frame, note: Option<&str>) -> Result<(), NoMemory>
    ensures { OnOk result (string_bytes text.new ≡ string_bytes text.old ++ ((place_line frame.place ++ note_line (option_copied note.entry)) ++ header_line frame.width frame.height)) }
{
    push_place(text, frame.place)?;
    push_note(text, note)?;
    push_header(text, frame.width, frame.height)?;
    Ok(())
}
