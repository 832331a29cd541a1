//! Whether hits of a book are clear of a pattern.

ghost use Rattle.std.specs.Prelude.{◌^◌, IfSome};
ghost use Rattle.life_cells.specs.Cells.{alive};
ghost use Rattle.life_cells.specs.Boxes.{IsInRange, IsCellInRange};
ghost use Rattle.lane_clear.specs.Frames.{farthest, IsFrameInRange};

use crate::books::checked;
use crate::numbers::numbers_of;
use crate::texts::Texts;
use lane_clear::clear_hit;
use life_cells::{Cell, CellSet, NoMemory};
use life_rle::read_rle;
use life_steps::Steps;
use recipe_book::CheckedBook;
use recipe_hit::HitFrame;
use std::alloc::{AllocError, Global};
use std::sync::ledger::Ledger;

/// The frame of a hit of a sound salvo, both by their numbers, counted from 0.
fn frame_of(book: &CheckedBook, salvo: usize, hit: usize) -> Option<HitFrame>
    ensures { IfSome result (λ frame. IsFrameInRange farthest frame) }
{
    let salvo = book.salvos().get(salvo)?;
    let hit = salvo.hits().get(hit)?;
    Some(hit.frame)
}

/// Where the hand is, by two numbers.
fn place_of(x: i32, y: i32) -> Cell
    ensures { IsCellInRange farthest result }
{
    Cell::new(i64::from(x), i64::from(y))
}

/// Whether a hit of this frame, with the hand at a place, is clear of these cells.
fn show_cleared(
    book: &CheckedBook,
    built: &CellSet,
    frame: HitFrame,
    at: Cell,
    report: &mut String,
) -> Result<(), AllocError>
    requires built { IsInRange (2 ^ 40) (alive built.now) }
    requires frame { IsFrameInRange farthest frame }
    requires at { IsCellInRange farthest at }
{
    match clear_hit(book.settings(), built, frame, at) {
        Ok(()) => report.push_str("clear\n"),
        Err(refusal) => write!(report, "{refusal:?}\n"),
    }
}

/// Whether a hit of a book's sound salvo, both by their numbers counted from 0, with the hand at a place, is clear of a pattern.
pub fn show_clear<L: Ledger>(
    alloc: Global,
    texts: &Texts,
    text: &[u8],
    words: &[String],
    report: &mut String,
    steps: &mut Steps<L>,
) -> Result<bool, NoMemory> {
    let Some((name, words)) = words.split_first() else {
        return Ok(false);
    };
    let Some(built) = texts.get(name.as_str()) else {
        return Ok(false);
    };
    let Ok(pattern) = read_rle(alloc, built) else {
        return Ok(false);
    };
    let numbers = numbers_of(alloc, words)?;
    show_clear_of(alloc, text, &pattern.cells, &numbers, report, steps)
}

/// The same, where numbers say the salvo, the hit and the place.
fn show_clear_of<L: Ledger>(
    alloc: Global,
    text: &[u8],
    built: &CellSet,
    numbers: &[i32],
    report: &mut String,
    steps: &mut Steps<L>,
) -> Result<bool, NoMemory>
    requires { IsInRange (2 ^ 40) (alive built.now) }
{
    let [salvo, hit, x, y] = *numbers else {
        return Ok(false);
    };
    let (Ok(salvo), Ok(hit)) = (usize::try_from(salvo), usize::try_from(hit)) else {
        return Ok(false);
    };
    let Some(book) = checked(alloc, text, steps) else {
        return Ok(false);
    };
    show_hit_of(&book, built, [salvo, hit], place_of(x, y), report)
}

/// The same, of a checked book.
fn show_hit_of(
    book: &CheckedBook,
    built: &CellSet,
    numbers: [usize; 2],
    at: Cell,
    report: &mut String,
) -> Result<bool, NoMemory>
    requires built { IsInRange (2 ^ 40) (alive built.now) }
    requires at { IsCellInRange farthest at }
{
    let [salvo, hit] = numbers;
    let Some(frame) = frame_of(book, salvo, hit) else {
        return Ok(false);
    };
    show_cleared(book, built, frame, at, report)?;
    Ok(true)
}
