//! What a whole line states.

ghost use Rattle.std.specs.Prelude.{IfOk, IfErr};
ghost use Rattle.book_lines.specs.Lines.{texts};
ghost use Rattle.book_lines.specs.Forms.{IsOneName};
ghost use Rattle.book_lines.specs.Statements.{States};
ghost use Rattle.book_lines.specs.Cuts.{StatesAs, IsLineError};
ghost use Rattle.book_lines.specs.Counts.{HasSmallCounts};
ghost use Rattle.book_lines.specs.Reads.{ReadsOrErrs};

use crate::book_word::BookWord;
use crate::fault::{LineError, LineFault};
use crate::items::{first, only};
use crate::keyword::{Keyword, keyword_of};
use crate::name::name;
use crate::placed::{elbow, hand};
use crate::salvo::salvo;
use crate::setting::setting;
use crate::statement::Statement;
use crate::turn::turn;
use crate::words::words_of;
use book_parts::Name;
use std::alloc::Global;

/// What a line states.
///
/// # Errors
///
/// What is wrong in its form, the first in the order of `LineFault`, or want of memory.
pub fn statement_of(alloc: Global, line: &[u8]) -> Result<Statement, LineError>
    ensures ok { IfOk result (λ s. States line.now s) }
    ensures err { IfErr result (λ e. IsLineError line.now e) }
    ensures few { IfOk result (λ s. HasSmallCounts s) }
{
    let words = words_of(alloc, line)?;
    let Some((word, items)) = first(&words) else {
        return Err(LineError::Fault(LineFault::Word));
    };
    let Some(keyword) = keyword_of(word) else {
        return Err(LineError::Fault(LineFault::Word));
    };
    items_statement(alloc, keyword, items)
}

/// What the items behind a first word state.
fn items_statement(alloc: Global, keyword: Keyword, items: &[&[u8]]) -> Result<Statement, LineError>
    ensures statement { ReadsOrErrs (λ level s. StatesAs keyword (texts items.now) level s) result }
    ensures few { IfOk result (λ s. HasSmallCounts s) }
{
    match keyword {
        Keyword::Book(word) => book_statement(alloc, word, items),
        Keyword::Turn => turn(alloc, items).map(Statement::Turn),
        Keyword::Salvo => salvo(alloc, items).map(Statement::Salvo),
    }
}

/// What the items behind a word that every book has state.
fn book_statement(alloc: Global, word: BookWord, items: &[&[u8]]) -> Result<Statement, LineError>
    ensures statement { ReadsOrErrs (λ level s. StatesAs (Keyword.Book word) (texts items.now) level s) result }
    ensures few { IfOk result (λ s. HasSmallCounts s) }
{
    match word {
        BookWord::Hand => hand(alloc, items).map(Statement::Hand),
        BookWord::Elbow => elbow(alloc, items).map(Statement::Elbow),
        BookWord::Start => name_line(alloc, items).map(Statement::Start),
        _ => setting(alloc, word, items).map(Statement::Setting),
    }
}

/// The name of a line with one.
fn name_line(alloc: Global, items: &[&[u8]]) -> Result<Name, LineError>
    ensures { ReadsOrErrs (λ level name. IsOneName name (texts items.now)) result }
{
    let Some(word) = only(items) else {
        return Err(LineError::Fault(LineFault::Form));
    };
    let Some(name) = name(word) else {
        return Err(LineError::Fault(LineFault::Form));
    };
    Ok(Name::from_text(alloc, name)?)
}
