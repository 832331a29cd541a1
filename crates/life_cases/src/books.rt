//! Calls on books: the canonical text, the salvos and their hits, elbow states, and routes.

ghost use Rattle.std.specs.Prelude.{◌^◌, ◌≤ℤ◌, pos, IfSome};
ghost use Rattle.elbow_graph.specs.Elbows.{IsInSpan};

use crate::cells::show_hit;
use crate::numbers::numbers_of;
use crate::show::{show_cells, show_lines};
use book_parts::{Name, Numbers};
use book_text::{read_book, write_book};
use elbow_graph::elbow_states;
use elbow_route::{Elbow, ElbowGraph, least_to_lane, route_to_close, route_to_lane};
use life_cells::NoMemory;
use life_steps::Steps;
use recipe_book::{CheckedBook, check_book};
use recipe_hit::CheckedSalvo;
use recipe_turn::CheckedTurn;
use std::alloc::Global;
use std::sync::ledger::Ledger;

/// The greatest span.
const MOST_SPAN: i64 = 134_217_728;

/// The canonical text of a book.
pub fn show_book(alloc: Global, text: &[u8], report: &mut String) -> Result<bool, NoMemory> {
    let Ok(book) = read_book(alloc, text) else {
        return Ok(false);
    };
    let mut written = Vec::new(alloc);
    write_book(alloc, &book, &mut written)?;
    show_lines(report, "| ", &written)?;
    Ok(true)
}

/// The book that a text says, checked.
pub fn checked<L: Ledger>(alloc: Global, text: &[u8], steps: &mut Steps<L>) -> Option<CheckedBook> {
    let book = read_book(alloc, text).ok()?;
    let (book, _) = check_book(alloc, book, steps).ok()?;
    Some(book)
}

/// The sound salvos of a book: their hits, and what they leave.
pub fn show_salvos<L: Ledger>(
    alloc: Global,
    text: &[u8],
    report: &mut String,
    steps: &mut Steps<L>,
) -> Result<bool, NoMemory> {
    let Some(book) = checked(alloc, text, steps) else {
        return Ok(false);
    };
    show_all_salvos(&book, report)
}

/// Each of them.
fn show_all_salvos(book: &CheckedBook, report: &mut String) -> Result<bool, NoMemory> {
    for salvo in book.salvos() {
        show_salvo(book, salvo, report)?;
    }
    Ok(true)
}

/// A salvo: its hits, its product, the numbers of all salvos with its shape, and where it leaves the hand.
fn show_salvo(
    book: &CheckedBook,
    salvo: &CheckedSalvo,
    report: &mut String,
) -> Result<(), NoMemory> {
    let name = salvo.raw().name.text();
    write!(report, "salvo {name}\n")?;
    for hit in salvo.hits() {
        show_hit(report, hit)?;
    }
    if let Some((shape, corner)) = salvo.product() {
        let (x, y) = (corner.x, corner.y);
        write!(report, "builds {x},{y} ")?;
        show_cells(report, "cells", shape.cells())?;
        let numbers = book.by_shape(shape);
        write!(report, "by shape {numbers:?}\n")?;
    }
    if let Some(hand) = salvo.leaves() {
        let (x, y) = (hand.x, hand.y);
        write!(report, "hand {x},{y}\n")?;
    }
    Ok(())
}

/// How many elbow states the sound turns of a book reach from a kind within a span, up to a limit.
pub fn show_states<L: Ledger>(
    alloc: Global,
    text: &[u8],
    words: &[String],
    report: &mut String,
    steps: &mut Steps<L>,
) -> Result<bool, NoMemory> {
    let numbers = numbers_of(alloc, words)?;
    show_states_of(alloc, text, &numbers, report, steps)
}

/// The same, where numbers say the kind, the span and the limit.
fn show_states_of<L: Ledger>(
    alloc: Global,
    text: &[u8],
    numbers: &[i32],
    report: &mut String,
    steps: &mut Steps<L>,
) -> Result<bool, NoMemory> {
    let [kind, span, limit] = *numbers else {
        return Ok(false);
    };
    let (Ok(kind), Ok(limit)) = (usize::try_from(kind), u64::try_from(limit)) else {
        return Ok(false);
    };
    let span = i64::from(span);
    if span < 0 || MOST_SPAN < span {
        return Ok(false);
    }
    let Some(book) = checked(alloc, text, steps) else {
        return Ok(false);
    };
    show_count(alloc, &book, kind, span, limit, report)
}

/// The number of these states.
fn show_count(
    alloc: Global,
    book: &CheckedBook,
    kind: usize,
    span: i64,
    limit: u64,
    report: &mut String,
) -> Result<bool, NoMemory>
    requires low { pos 0 ≤ℤ span }
    requires high { span ≤ℤ pos (2 ^ 27) }
{
    let count = elbow_states(alloc, book.turns(), kind, span, limit)?;
    write!(report, "{count:?}\n")?;
    Ok(true)
}

/// The least list of sound turns of a book that closes an elbow, by its kind and shift, within a span; or that serves a lane, where one
/// is named.
pub fn show_route<L: Ledger>(
    alloc: Global,
    text: &[u8],
    words: &[String],
    report: &mut String,
    steps: &mut Steps<L>,
) -> Result<bool, NoMemory> {
    let numbers = numbers_of(alloc, words)?;
    show_route_of(alloc, text, &numbers, report, steps)
}

/// The same, where numbers say the kind, the shift, the span and the lane.
fn show_route_of<L: Ledger>(
    alloc: Global,
    text: &[u8],
    numbers: &[i32],
    report: &mut String,
    steps: &mut Steps<L>,
) -> Result<bool, NoMemory> {
    let (kind, shift, span, lane) = match *numbers {
        [kind, shift, span] => (kind, shift, span, None),
        [kind, shift, span, lane] => (kind, shift, span, Some(i64::from(lane))),
        _ => return Ok(false),
    };
    let span = i64::from(span);
    let Some(from) = elbow_of(kind, shift, span) else {
        return Ok(false);
    };
    let Some(book) = checked(alloc, text, steps) else {
        return Ok(false);
    };
    show_list(alloc, &book, from, span, lane, report)
}

/// The same, of a checked book.
fn show_list(
    alloc: Global,
    book: &CheckedBook,
    from: Elbow,
    span: i64,
    lane: Option<i64>,
    report: &mut String,
) -> Result<bool, NoMemory>
    requires low { pos 0 ≤ℤ span }
    requires high { span ≤ℤ pos (2 ^ 27) }
    requires from { IsInSpan span from }
{
    let route = route_of(alloc, book, from, span, lane)?;
    write!(report, "{route:?}\n")?;
    Ok(true)
}

/// The elbow of a kind and a shift, where the span is one and the shift is within it.
fn elbow_of(kind: i32, shift: i32, span: i64) -> Option<Elbow>
    ensures low { IfSome result (λ _. pos 0 ≤ℤ span) }
    ensures high { IfSome result (λ _. span ≤ℤ pos (2 ^ 27)) }
    ensures elbow { IfSome result (λ elbow. IsInSpan span elbow) }
{
    let kind = usize::try_from(kind).ok()?;
    let shift = i64::from(shift);
    if span < 0 || MOST_SPAN < span || shift < -span || span < shift {
        return None;
    }
    Some(Elbow { kind, shift })
}

/// The least list that serves a lane, where one is named, or closes the elbow.
fn route_of(
    alloc: Global,
    book: &CheckedBook,
    from: Elbow,
    span: i64,
    lane: Option<i64>,
) -> Result<Option<Vec<usize>>, NoMemory>
    requires low { pos 0 ≤ℤ span }
    requires high { span ≤ℤ pos (2 ^ 27) }
    requires from { IsInSpan span from }
{
    match lane {
        Some(lane) => route_to_lane(alloc, book.turns(), from, lane, span),
        None => route_to_close(alloc, book.turns(), from, span),
    }
}

/// Copies of the names and delays of a book's turns, and whether they are equal to what they are copies of, and to nothing else.
pub fn show_copies(alloc: Global, text: &[u8], report: &mut String) -> Result<bool, NoMemory> {
    let Ok(book) = read_book(alloc, text) else {
        return Ok(false);
    };
    let other = Name::from_text(alloc, "other")?;
    let others = Numbers::from_slice(alloc, &[0, 51])?;
    for turn in &book.turns {
        let (name, delays) = (turn.name.copy()?, turn.delays.copy()?);
        let (text, items) = (name.text(), delays.items());
        let same = name == turn.name && delays == turn.delays;
        let another = name == other || delays == others;
        write!(report, "{text} {items:?} same {same} another {another}\n")?;
    }
    Ok(true)
}

/// For each lane from one to another the least list of sound turns of a book that serves it from an elbow, by its kind and shift, within a
/// span.
pub fn show_lanes<L: Ledger>(
    alloc: Global,
    text: &[u8],
    words: &[String],
    report: &mut String,
    steps: &mut Steps<L>,
) -> Result<bool, NoMemory> {
    let numbers = numbers_of(alloc, words)?;
    show_lanes_of(alloc, text, &numbers, report, steps)
}

/// The same, where numbers say the kind, the shift, the first lane, the last and the span.
fn show_lanes_of<L: Ledger>(
    alloc: Global,
    text: &[u8],
    numbers: &[i32],
    report: &mut String,
    steps: &mut Steps<L>,
) -> Result<bool, NoMemory> {
    let [kind, shift, first, last, span] = *numbers else {
        return Ok(false);
    };
    let span = i64::from(span);
    let Some(from) = elbow_of(kind, shift, span) else {
        return Ok(false);
    };
    let Some(book) = checked(alloc, text, steps) else {
        return Ok(false);
    };
    show_lists(alloc, book.turns(), from, [first, last], span, report)
}

/// The least lists of sound turns that serve the lanes of a range, from the first to the last of two, over one graph.
fn show_lists(
    alloc: Global,
    turns: &[CheckedTurn],
    from: Elbow,
    range: [i32; 2],
    span: i64,
    report: &mut String,
) -> Result<bool, NoMemory>
    requires { pos 0 ≤ℤ span }
{
    let graph = ElbowGraph::of(alloc, turns)?;
    show_range(alloc, &graph, from, range, span, report)
}

/// The same, over a graph that is made.
fn show_range(
    alloc: Global,
    graph: &ElbowGraph,
    from: Elbow,
    range: [i32; 2],
    span: i64,
    report: &mut String,
) -> Result<bool, NoMemory>
    requires { pos 0 ≤ℤ span }
{
    let [first, last] = range;
    for lane in first..=last {
        show_lane(alloc, graph, from, i64::from(lane), span, report)?;
    }
    Ok(true)
}

/// The least list that serves a lane, over a graph that is made.
fn show_lane(
    alloc: Global,
    graph: &ElbowGraph,
    from: Elbow,
    lane: i64,
    span: i64,
    report: &mut String,
) -> Result<(), NoMemory>
    requires { pos 0 ≤ℤ span }
{
    let list = least_to_lane(alloc, graph, from, lane, span)?;
    write!(report, "{lane} {list:?}\n")?;
    Ok(())
}
