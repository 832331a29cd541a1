//! What a case runs: the program, or a call that the program does not offer.

use crate::books::{show_book, show_copies, show_lanes, show_route, show_salvos, show_states};
use crate::cells::{show_body, show_hits, show_islands, show_shape};
use crate::clearing::show_clear;
use crate::hands::{show_clears, show_hand, show_hands};
use crate::plans::show_plan;
use crate::runs::{Fails, run_life};
use crate::sets::{show_inserts, show_pair, show_plain, show_set};
use crate::texts::Texts;
use crate::tracks::{show_boxes, show_found, show_glider, show_split, show_strip};
use crate::words::show_command;
use life_cells::NoMemory;
use life_steps::Steps;
use std::alloc::Global;
use std::sync::ledger::Ledger;

/// The words of a line, each on its own.
fn words_of(alloc: Global, line: &str) -> Result<Vec<String>, NoMemory> {
    let mut words = Vec::new(alloc);
    for word in line.split_whitespace() {
        words.push(String::from_str(alloc, word)?)?;
    }
    Ok(words)
}

/// Runs what the words say, and prints what it answers; whether they say something.
pub fn call<L: Ledger>(
    alloc: Global,
    texts: &Texts,
    fails: &mut Fails,
    line: &str,
    report: &mut String,
    steps: &mut Steps<L>,
) -> Result<bool, NoMemory> {
    let words = words_of(alloc, line)?;
    let Some((name, words)) = words.split_first() else {
        return Ok(false);
    };
    match name.as_str() {
        "life" => {
            run_life(alloc, texts, fails, words, report, steps)?;
            Ok(true)
        }
        "command" => show_command(alloc, words, report),
        "set" => show_set(alloc, words, report),
        "glider" => show_glider(alloc, words, report),
        "boxes" => show_boxes(alloc, words, report),
        name => call_on_text(alloc, texts, name, words, report, steps),
    }
}

/// Runs a call on a text.
fn call_on_text<L: Ledger>(
    alloc: Global,
    texts: &Texts,
    name: &str,
    words: &[String],
    report: &mut String,
    steps: &mut Steps<L>,
) -> Result<bool, NoMemory> {
    let Some((word, words)) = words.split_first() else {
        return Ok(false);
    };
    let Some(text) = texts.get(word.as_str()) else {
        return Ok(false);
    };
    match name {
        "body" => show_body(alloc, text, report),
        "hits" => show_hits(alloc, text, words, report, steps),
        "islands" => show_islands(alloc, text, report),
        "shape" => show_shape(alloc, text, report),
        "inserts" => show_inserts(alloc, text, words, report),
        "plain" => show_plain(alloc, text, words, report),
        "found" => show_found(alloc, text, words, report),
        "strip" => show_strip(alloc, text, words, report),
        "book" => show_book(alloc, text, report),
        "copies" => show_copies(alloc, text, report),
        "salvos" => show_salvos(alloc, text, report, steps),
        "clear" => show_clear(alloc, texts, text, words, report, steps),
        "hand" => show_hand(alloc, texts, text, words, report, steps),
        "hands" => show_hands(alloc, texts, text, words, true, report, steps),
        "places" => show_hands(alloc, texts, text, words, false, report, steps),
        "clears" => show_clears(alloc, texts, text, words, report, steps),
        "plan" => show_plan(alloc, texts, text, words, report, steps),
        "states" => show_states(alloc, text, words, report, steps),
        "route" => show_route(alloc, text, words, report, steps),
        "lanes" => show_lanes(alloc, text, words, report, steps),
        name => call_on_two(alloc, texts, name, text, words, report),
    }
}

/// Runs a call on two texts.
fn call_on_two(
    alloc: Global,
    texts: &Texts,
    name: &str,
    text: &[u8],
    words: &[String],
    report: &mut String,
) -> Result<bool, NoMemory> {
    let Some((word, words)) = words.split_first() else {
        return Ok(false);
    };
    let Some(other) = texts.get(word.as_str()) else {
        return Ok(false);
    };
    match name {
        "pair" => show_pair(alloc, text, other, report),
        "split" => show_split(alloc, text, other, words, report),
        _ => Ok(false),
    }
}
