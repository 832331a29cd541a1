//! What stands before the items of a text: lines that are passed over, and the header.

ghost use Rattle.std.specs.Prelude.{◌≡◌, ℕ, ◌+◌, ◌<◌, length, IfOk, IfErr};
ghost use Rattle.text_lines.specs.Lines.{first_line, behind};
ghost use Rattle.life_rle.specs.Rests.{EndsWith};
ghost use Rattle.text_lines.specs.Blanks.{IsPassedOver};
ghost use Rattle.rle_items.specs.Reach.{IsInReach};
ghost use Rattle.life_rle.specs.Text.{gives_place, HasBody};
ghost use Rattle.life_rle.specs.TextFaults.{StartStopsWith};
ghost use Rattle.life_rle.specs.Opened.{IsOpened, Gives, PlaceIsRefused};

use crate::error::RleError;
use crate::header::check_header;
use crate::place::place_in;
use life_cells::Cell;
use rle_items::front::offset;
use rle_items::reach::is_in_reach;
use text_lines::{is_passed_over, split_line};

/// A line that may give the place, and where it begins.
#[derive(Clone, Copy)]
pub struct PlaceLine<'a> {
    /// The line.
    pub line: &'a [u8],
    /// The place of its first byte in the text.
    pub at: u64,
}

/// What stands before the header.
#[derive(Clone, Copy)]
struct Opening<'a> {
    /// The first line that may give the place.
    place_line: Option<PlaceLine<'a>>,
    /// The text from the header's line on.
    rest: &'a [u8],
    /// The number of that line, counted from 1.
    line: u64,
}

/// Where the items begin.
#[derive(Clone, Copy)]
pub struct Start<'a> {
    /// The place of the first item.
    pub place: Cell,
    /// What stands behind the header's line.
    pub body: &'a [u8],
}

/// Whether a line may give the place of the items.
fn gives_place(line: &[u8]) -> bool
    ensures { result ≡ gives_place line.now }
{
    line.starts_with(b"#CXRLE")
}

/// The first line that may give the place, of one line more.
fn found_with<'a>(
    text: &[u8],
    rest: &[u8],
    line: &'a [u8],
    before: Option<PlaceLine<'a>>,
) -> Option<PlaceLine<'a>>
    requires ends { EndsWith text.now rest.now }
    requires some { 0 < length rest.now }
    requires line { line.now ≡ first_line rest.now }
    requires passed { IsPassedOver line.now }
    ensures { (number : ℕ) → IsOpened text.now rest.now before.entry number → IsOpened text.now (behind rest.now) result (number + 1) }
{
    if before.is_none() && gives_place(line) {
        let at = offset(text, rest);
        Some(PlaceLine { line, at })
    } else {
        before
    }
}

/// The lines that are passed over at a text's front.
fn skip_passed_over(text: &[u8]) -> Opening<'_>
    ensures opened { IsOpened text.now result.rest.now result.place_line result.line }
    ensures stopped { 0 < length result.rest.now → ¬ IsPassedOver (first_line result.rest.now) }
{
    let mut rest = text;
    let mut place_line = None;
    let mut number = 1;
    while !rest.is_empty() {
        let (line, more) = split_line(rest);
        if !is_passed_over(line) {
            break;
        }
        place_line = found_with(text, rest, line, place_line);
        number += 1;
        rest = more;
    }
    Opening {
        place_line,
        rest,
        line: number,
    }
}

/// The place that a line gives, if it is in reach; without a line it is (0,0).
fn read_place(found: Option<PlaceLine>) -> Result<Cell, RleError>
    ensures place { IfOk result (λ place. Gives found.entry place) }
    ensures near { IfOk result (λ place. IsInReach place) }
    ensures far { IfErr result (λ e. PlaceIsRefused found.entry e) }
{
    let Some(found) = found else {
        return Ok(Cell::new(0, 0));
    };
    let place = place_in(found.line);
    if is_in_reach(place) {
        Ok(place)
    } else {
        Err(RleError::TooFar { at: found.at })
    }
}

/// Reads the lines that are passed over, and the header.
pub fn read_start(text: &[u8]) -> Result<Start<'_>, RleError>
    ensures body { IfOk result (λ start. HasBody text.now start.place start.body.now) }
    ensures near { IfOk result (λ start. IsInReach start.place) }
    ensures refusal { IfErr result (λ e. StartStopsWith text.now e) }
{
    let opening = skip_passed_over(text);
    if opening.rest.is_empty() {
        return Err(RleError::NoHeader);
    }
    let (line, body) = split_line(opening.rest);
    check_header(line, opening.line)?;
    let place = read_place(opening.place_line)?;
    Ok(Start { place, body })
}
