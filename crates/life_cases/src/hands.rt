//! How salvos of a book carry the hand among what is built.

ghost use Rattle.std.specs.Prelude.{◌^◌, IfSome};
ghost use Rattle.life_cells.specs.Boxes.{InBox, IsCellInRange, IsInRange};
ghost use Rattle.life_cells.specs.Cells.{alive};
ghost use Rattle.lane_clear.specs.Frames.{farthest};
ghost use Rattle.hand_route.specs.Rooms.{IsRoom};

use crate::books::checked;
use crate::numbers::numbers_of;
use crate::texts::Texts;
use hand_route::room::{has, is_room};
use hand_route::{HandSalvos, HandWays, is_salvo_clear, route_farewell, route_hand};
use lane_clear::BuiltSet;
use life_cells::{Bounds, Cell, CellSet, NoMemory};
use life_rle::read_rle;
use life_steps::Steps;
use recipe_book::CheckedBook;
use std::alloc::Global;
use std::sync::ledger::Ledger;

/// Lists of more salvos are counted alone.
const MOST_SHOWN: usize = 2;

/// A room, and a place in it.
#[derive(Clone, Copy)]
struct Stand {
    room: Bounds,
    from: Cell,
}

/// A cell by two numbers.
fn cell_of(x: i32, y: i32) -> Cell
    ensures { IsCellInRange farthest result }
{
    Cell::new(i64::from(x), i64::from(y))
}

/// The room and the place that six numbers say, if the room has the place.
fn stand_of(numbers: &[i32]) -> Option<Stand>
    ensures { IfSome result (λ stand. IsRoom stand.room × InBox stand.room stand.from.x stand.from.y) }
{
    let [left, top, right, bottom, x, y] = *numbers else {
        return None;
    };
    let room = Bounds {
        left: i64::from(left),
        top: i64::from(top),
        right: i64::from(right),
        bottom: i64::from(bottom),
    };
    let from = cell_of(x, y);
    if !is_room(room) || !has(room, from) {
        return None;
    }
    Some(Stand { room, from })
}

/// The cells of the text with a name.
fn built_of(alloc: Global, texts: &Texts, name: &str) -> Option<CellSet>
    ensures { IfSome result (λ built. IsInRange (2 ^ 40) (alive built)) }
{
    let text = texts.get(name)?;
    let pattern = read_rle(alloc, text).ok()?;
    Some(pattern.cells)
}

/// The cells that a text says, as what is built.
fn built_set(alloc: Global, cells: &CellSet) -> Result<BuiltSet, NoMemory>
    requires { IsInRange (2 ^ 40) (alive cells.now) }
{
    BuiltSet::of(alloc, cells)
}

/// The least list of salvos of a book that carry the hand to a place, or take it away where no place is named.
fn list_of(
    alloc: Global,
    book: &CheckedBook,
    built: &CellSet,
    stand: Stand,
    to: Option<Cell>,
) -> Result<Option<Vec<usize>>, NoMemory>
    requires built { IsInRange (2 ^ 40) (alive built.now) }
    requires stand { IsRoom stand.room × InBox stand.room stand.from.x stand.from.y }
{
    let Stand { room, from } = stand;
    let (settings, salvos) = (book.settings(), book.salvos());
    match to {
        Some(to) => route_hand(alloc, settings, salvos, from, to, built, room),
        None => route_farewell(alloc, settings, salvos, from, built, room),
    }
}

/// The least list of salvos of a book that carry the hand from a place of a room, among a pattern, to another place; or that take it away,
/// where no other place is named.
pub fn show_hand<L: Ledger>(
    alloc: Global,
    texts: &Texts,
    text: &[u8],
    words: &[String],
    report: &mut String,
    steps: &mut Steps<L>,
) -> Result<bool, NoMemory> {
    let Some((name, words)) = words.split_first() else {
        return Ok(false);
    };
    let Some(built) = built_of(alloc, texts, name.as_str()) else {
        return Ok(false);
    };
    let numbers = numbers_of(alloc, words)?;
    show_hand_of(alloc, text, &built, &numbers, report, steps)
}

/// The same, where numbers say the room and the places.
fn show_hand_of<L: Ledger>(
    alloc: Global,
    text: &[u8],
    built: &CellSet,
    numbers: &[i32],
    report: &mut String,
    steps: &mut Steps<L>,
) -> Result<bool, NoMemory>
    requires { IsInRange (2 ^ 40) (alive built.now) }
{
    let (stand, to) = match *numbers {
        [a, b, c, d, x, y, u, v] => (stand_of(&[a, b, c, d, x, y]), Some(cell_of(u, v))),
        _ => (stand_of(numbers), None),
    };
    let Some(stand) = stand else {
        return Ok(false);
    };
    let Some(book) = checked(alloc, text, steps) else {
        return Ok(false);
    };
    show_list_of(alloc, &book, built, stand, to, report)
}

/// The same, of a checked book.
fn show_list_of(
    alloc: Global,
    book: &CheckedBook,
    built: &CellSet,
    stand: Stand,
    to: Option<Cell>,
    report: &mut String,
) -> Result<bool, NoMemory>
    requires built { IsInRange (2 ^ 40) (alive built.now) }
    requires stand { IsRoom stand.room × InBox stand.room stand.from.x stand.from.y }
{
    let list = list_of(alloc, book, built, stand, to)?;
    write!(report, "{list:?}\n")?;
    Ok(true)
}

/// How many places of a room the hand is carried to from one of them, among a pattern; and each place to which few salvos carry it, with
/// the least list, where these are asked for.
pub fn show_hands<L: Ledger>(
    alloc: Global,
    texts: &Texts,
    text: &[u8],
    words: &[String],
    each: bool,
    report: &mut String,
    steps: &mut Steps<L>,
) -> Result<bool, NoMemory> {
    let Some((name, words)) = words.split_first() else {
        return Ok(false);
    };
    let Some(built) = built_of(alloc, texts, name.as_str()) else {
        return Ok(false);
    };
    let numbers = numbers_of(alloc, words)?;
    let Some(stand) = stand_of(&numbers) else {
        return Ok(false);
    };
    show_hands_of(alloc, text, &built, stand, each, report, steps)
}

/// The same, from a place of a room.
fn show_hands_of<L: Ledger>(
    alloc: Global,
    text: &[u8],
    built: &CellSet,
    stand: Stand,
    each: bool,
    report: &mut String,
    steps: &mut Steps<L>,
) -> Result<bool, NoMemory>
    requires built { IsInRange (2 ^ 40) (alive built.now) }
    requires stand { IsRoom stand.room × InBox stand.room stand.from.x stand.from.y }
{
    let Some(book) = checked(alloc, text, steps) else {
        return Ok(false);
    };
    show_ways(alloc, &book, built, stand, each, report)
}

/// The ways of the hand from a place of a room, by one labelling.
fn show_ways(
    alloc: Global,
    book: &CheckedBook,
    built: &CellSet,
    stand: Stand,
    each: bool,
    report: &mut String,
) -> Result<bool, NoMemory>
    requires built { IsInRange (2 ^ 40) (alive built.now) }
    requires stand { IsRoom stand.room × InBox stand.room stand.from.x stand.from.y }
{
    let salvos = HandSalvos::of(alloc, book.settings(), book.salvos())?;
    let built = built_set(alloc, built)?;
    let mut ways = HandWays::start(alloc, &salvos, &built, stand.room, stand.from)?;
    if each {
        show_near(alloc, &mut ways, stand.room, report)?;
    }
    let outside = Cell::new(i64::MAX, i64::MAX);
    ways.list_to(alloc, outside)?;
    let count = ways.len();
    write!(report, "{count} places\n")?;
    Ok(true)
}

/// Each place of a room to which few salvos carry the hand, with the least list.
fn show_near(
    alloc: Global,
    ways: &mut HandWays,
    room: Bounds,
    report: &mut String,
) -> Result<(), NoMemory> {
    for y in room.top..=room.bottom {
        for x in room.left..=room.right {
            show_list(alloc, ways, Cell::new(x, y), report)?;
        }
    }
    Ok(())
}

/// The least list to a place, where there is one and it is short.
fn show_list(
    alloc: Global,
    ways: &mut HandWays,
    to: Cell,
    report: &mut String,
) -> Result<(), NoMemory> {
    let Some(list) = ways.list_to(alloc, to)? else {
        return Ok(());
    };
    if list.len() <= MOST_SHOWN {
        let Cell { x, y } = to;
        write!(report, "{x},{y} {list:?}\n")?;
    }
    Ok(())
}

/// How many hits the salvos of a book have that are clear among a pattern, with the hand at each place of a box in turn, whose left, top,
/// right and bottom are named.
pub fn show_clears<L: Ledger>(
    alloc: Global,
    texts: &Texts,
    text: &[u8],
    words: &[String],
    report: &mut String,
    steps: &mut Steps<L>,
) -> Result<bool, NoMemory> {
    let Some((name, words)) = words.split_first() else {
        return Ok(false);
    };
    let Some(built) = built_of(alloc, texts, name.as_str()) else {
        return Ok(false);
    };
    let numbers = numbers_of(alloc, words)?;
    let [left, top, right, bottom] = *numbers.as_slice() else {
        return Ok(false);
    };
    let built = built_set(alloc, &built)?;
    show_clears_of(
        alloc,
        text,
        &built,
        [left, top, right, bottom],
        report,
        steps,
    )
}

/// The same, among what is built.
fn show_clears_of<L: Ledger>(
    alloc: Global,
    text: &[u8],
    built: &BuiltSet,
    places: [i32; 4],
    report: &mut String,
    steps: &mut Steps<L>,
) -> Result<bool, NoMemory> {
    let Some(book) = checked(alloc, text, steps) else {
        return Ok(false);
    };
    let count = clear_hits_in(&book, built, places);
    write!(report, "{count} hits\n")?;
    Ok(true)
}

/// How many hits the salvos have that are clear with the hand at each place of a box in turn: its left, top, right and bottom.
fn clear_hits_in(book: &CheckedBook, built: &BuiltSet, places: [i32; 4]) -> u64 {
    let [left, top, right, bottom] = places;
    let mut count = 0_u64;
    for y in top..=bottom {
        for x in left..=right {
            count = count.wrapping_add(clear_hits(book, built, cell_of(x, y)));
        }
    }
    count
}

/// How many hits the salvos have that are clear with the hand at a place.
fn clear_hits(book: &CheckedBook, built: &BuiltSet, place: Cell) -> u64
    requires { IsCellInRange farthest place }
{
    let mut count = 0_u64;
    for salvo in book.salvos() {
        if is_salvo_clear(book.settings(), built, salvo, place) {
            count = count.wrapping_add(salvo.hits().len() as u64);
        }
    }
    count
}
