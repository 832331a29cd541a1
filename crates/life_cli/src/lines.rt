//! The lines on standard error.

ghost use Rattle.std.specs.Prelude.{◌≡◌, IfOk};
ghost use Rattle.std.specs.String.{string_bytes};
ghost use Rattle.life_cli.specs.ErrorLines.{which_text, words_text, rle_text, fault_text, book_text, target_text, refusal_text, plan_text, full_text, status_text, error_line};

use crate::status::{Status, Which};
use book_text::{BookError, LineFault};
use build_plan::PlanError;
use life_rle::RleError;
use life_target::TargetError;
use life_words::WordsError;
use recipe_book::BookRefusal;
use recipe_find::Full;
use std::alloc::{AllocError, Global};

fn which_text(which: Which) -> &'static str
    ensures { result.now ≡ which_text which }
{
    match which {
        Which::Book => "book",
        Which::Target => "target",
        Which::Pattern => "pattern",
    }
}

fn words_text(alloc: Global, refusal: WordsError) -> Result<String, AllocError>
    ensures { IfOk result (λ text. string_bytes text ≡ words_text refusal) }
{
    match refusal {
        WordsError::NoCommand => String::from_str(alloc, "words none"),
        WordsError::Dash { place } => format!(in alloc; "words dash {place}"),
        WordsError::UnknownCommand => String::from_str(alloc, "words unknown"),
        WordsError::WrongCount => String::from_str(alloc, "words count"),
        WordsError::BadNumber { place } => format!(in alloc; "words number {place}"),
        WordsError::Memory => String::from_str(alloc, "memory"),
    }
}

fn rle_text(alloc: Global, fault: RleError) -> Result<String, AllocError>
    ensures { IfOk result (λ text. string_bytes text ≡ rle_text fault) }
{
    match fault {
        RleError::NoHeader => String::from_str(alloc, "no header"),
        RleError::BadHeader { line } => format!(in alloc; "header {line}"),
        RleError::BadRule { line } => format!(in alloc; "rule {line}"),
        RleError::BadItem { at } => format!(in alloc; "item {at}"),
        RleError::BadCount { at } => format!(in alloc; "count {at}"),
        RleError::NoEnd => String::from_str(alloc, "no end"),
        RleError::TooFar { at } => format!(in alloc; "far {at}"),
        RleError::TooMany { count } => format!(in alloc; "many {count}"),
        RleError::Memory => String::from_str(alloc, "memory"),
    }
}

fn fault_text(fault: LineFault) -> &'static str
    ensures { result.now ≡ fault_text fault }
{
    match fault {
        LineFault::Version => "version",
        LineFault::Word => "word",
        LineFault::Form => "form",
        LineFault::Number => "number",
        LineFault::Body => "body",
        LineFault::Empty => "empty",
    }
}

fn book_text(alloc: Global, fault: BookError) -> Result<String, AllocError>
    ensures { IfOk result (λ text. string_bytes text ≡ book_text fault) }
{
    match fault {
        BookError::BadLine { line, why } => {
            let why = fault_text(why);
            format!(in alloc; "line {line} {why}")
        }
        BookError::Doubled { line } => format!(in alloc; "doubled {line}"),
        BookError::UnknownKind { line } => format!(in alloc; "kind {line}"),
        BookError::LimitOver { line, number } => format!(in alloc; "limit {line} {number}"),
        BookError::Missing { word } => {
            let word = word.text();
            format!(in alloc; "missing {word}")
        }
        BookError::WallReach { wall, reach } => format!(in alloc; "reach {wall} {reach}"),
        BookError::Memory => String::from_str(alloc, "memory"),
    }
}

fn target_text(alloc: Global, refusal: TargetError) -> Result<String, AllocError>
    ensures { IfOk result (λ text. string_bytes text ≡ target_text refusal) }
{
    match refusal {
        TargetError::TooWide { side } => format!(in alloc; "wide {side}"),
        TargetError::NotStill { cell } => {
            let (x, y) = (cell.x, cell.y);
            format!(in alloc; "moves {x} {y}")
        }
        TargetError::TooManyIslands { count } => format!(in alloc; "islands {count}"),
        TargetError::Memory => String::from_str(alloc, "memory"),
    }
}

fn refusal_text(alloc: Global, refusal: BookRefusal) -> Result<String, AllocError>
    ensures { IfOk result (λ text. string_bytes text ≡ refusal_text refusal) }
{
    match refusal {
        BookRefusal::KindPlace { kind, cell } => {
            let (x, y) = (cell.x, cell.y);
            format!(in alloc; "kind {kind} place {x} {y}")
        }
        BookRefusal::KindNotStill { kind, cell } => {
            let (x, y) = (cell.x, cell.y);
            format!(in alloc; "kind {kind} moves {x} {y}")
        }
        BookRefusal::HandNotStill { cell } => {
            let (x, y) = (cell.x, cell.y);
            format!(in alloc; "hand moves {x} {y}")
        }
        BookRefusal::ElbowMany { count } => format!(in alloc; "elbows {count}"),
        BookRefusal::Memory => String::from_str(alloc, "memory"),
    }
}

fn plan_text(alloc: Global, stop: PlanError) -> Result<String, AllocError>
    ensures { IfOk result (λ text. string_bytes text ≡ plan_text stop) }
{
    match stop {
        PlanError::NoRecipe { island, at } => {
            let (x, y) = (at.x, at.y);
            format!(in alloc; "no recipe {island} {x} {y}")
        }
        PlanError::NoClosing { kind, shift } => format!(in alloc; "no closing {kind} {shift}"),
        PlanError::StreamLong { count } => format!(in alloc; "stream long {count}"),
        PlanError::Memory => String::from_str(alloc, "memory"),
    }
}

fn full_text(what: Full) -> &'static str
    ensures { result.now ≡ full_text what }
{
    match what {
        Full::Salvos => "salvos",
        Full::Turns => "turns",
        Full::Cells => "cells",
    }
}

/// The text of a status; Done and Memory have none.
fn status_text(alloc: Global, status: Status) -> Result<String, AllocError>
    ensures { IfOk result (λ text. string_bytes text ≡ status_text status) }
{
    match status {
        Status::Done | Status::Memory => Ok(String::new(alloc)),
        Status::Words(refusal) => words_text(alloc, refusal),
        Status::ReadFault => String::from_str(alloc, "read fault"),
        Status::TooLong { which } => {
            let which = which_text(which);
            format!(in alloc; "{which} too long")
        }
        Status::BadRle { which, fault } => {
            let which = which_text(which);
            let fault = rle_text(alloc, fault)?;
            format!(in alloc; "{which} {fault}")
        }
        Status::BadBookText(fault) => {
            let fault = book_text(alloc, fault)?;
            format!(in alloc; "book {fault}")
        }
        Status::BadTarget(refusal) => {
            let refusal = target_text(alloc, refusal)?;
            format!(in alloc; "target {refusal}")
        }
        Status::BadBook(refusal) => refusal_text(alloc, refusal),
        Status::NoPlan(stop) => plan_text(alloc, stop),
        Status::StreamLong { count } => format!(in alloc; "stream long {count}"),
        Status::BookFull { what, count } => {
            let what = full_text(what);
            format!(in alloc; "book full {what} {count}")
        }
        Status::WriteFault => String::from_str(alloc, "write fault"),
    }
}

/// The line of a status.
pub(crate) fn error_line(alloc: Global, status: Status) -> Result<String, AllocError>
    ensures { IfOk result (λ line. string_bytes line ≡ error_line status) }
{
    let text = status_text(alloc, status)?;
    format!(in alloc; "life: {text}\n")
}
