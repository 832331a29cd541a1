//! Reading a book.

ghost use Rattle.std.specs.Prelude.{◌≡◌, ◌+◌, ◌≤◌, ◌<◌, ◌^◌, ℕ, length, IfOk, IfErr, OnOk, IsTrue, ◌↔◌, [], ◌∷◌, codes};
ghost use Rattle.std.specs.Str.Lines.{lines};
ghost use Rattle.book_parts.specs.Proper.{IsProperBook};
ghost use Rattle.book_lines.specs.declared.statement.Statement.{Statement};
ghost use Rattle.book_lines.specs.Lines.{texts};
ghost use Rattle.text_lines.specs.Blanks.{IsPassedOver};
ghost use Rattle.book_lines.specs.Statements.{States};
ghost use Rattle.book_lines.specs.Counts.{HasSmallCounts};
ghost use Rattle.book_read.specs.Stated.{Stated, nothing_stated, joined};
ghost use Rattle.book_read.specs.Joining.{IsFine};
ghost use Rattle.book_read.specs.Reading.{AreFine, IsVersion, IsBegun, HasNoVersion};
ghost use Rattle.book_read.specs.Book.{Says, StopsWith};
ghost use Rattle.book_read.specs.Drafted.{stated_of, IsKept, IsLineRefusal, IsBodyRefusal, IsTaken, IsOtherLine, IsVersionRefusal};

use crate::draft::Draft;
use crate::error::BookError;
use crate::joining::{is_new, knows_kinds, over};
use crate::whole::book_of;
use book_lines::items::{is_word, two};
use book_lines::{LineError, LineFault, Statement, statement_of, words_of};
use book_parts::RawBook;
use life_cells::NoMemory;
use std::alloc::Global;
use text_lines::{is_passed_over, split_line};

/// The lines of a book behind the version's, and how many lines stand up to it.
#[derive(Clone, Copy)]
struct Begun<'a> {
    number: u64,
    body: &'a [u8],
}

/// The book of a text.
///
/// Lines may stand in any order, but a kind is defined in an earlier line than one that names it.
///
/// # Errors
///
/// The refusal of the first faulty line; where there is none, the first word that is missing, or a reach too near the wall;
/// or want of memory.
pub fn read_book(alloc: Global, text: &[u8]) -> Result<RawBook, BookError>
    ensures ok { IfOk result (λ book. Says text.now book) }
    ensures proper { IfOk result (λ book. IsProperBook book) }
    ensures err { IfErr result (λ e. StopsWith text.now e) }
{
    let begun = begin(alloc, text)?;
    let draft = read_lines(alloc, begun.body, begun.number)?;
    book_of(draft)
}

/// What stands behind the version's line.
fn begin(alloc: Global, text: &[u8]) -> Result<Begun<'_>, BookError>
    ensures ok { IfOk result (λ begun. IsBegun (lines text.now) begun.number (lines begun.body.now)) }
    ensures small { IfOk result (λ begun. begun.number + length begun.body.now ≤ length text.now) }
    ensures err { IfErr result (λ e. IsVersionRefusal (lines text.now) e) }
{
    let mut number = 0;
    let mut rest = text;
    while !rest.is_empty() {
        let (line, more) = split_line(rest);
        number += 1;
        if !is_passed_over(line) {
            require_version(alloc, line, number)?;
            return Ok(Begun { number, body: more });
        }
        rest = more;
    }
    let why = LineFault::Version;
    Err(BookError::BadLine { line: 1, why })
}

/// That the line with this number is `scbook 1`.
fn require_version(alloc: Global, line: &[u8], number: u64) -> Result<(), BookError>
    ensures ok { OnOk result (IsVersion line.now) }
    ensures err { IfErr result (λ e. IsOtherLine line.now number e) }
{
    if is_version(alloc, line)? {
        return Ok(());
    }
    Err(BookError::BadLine {
        line: number,
        why: LineFault::Version,
    })
}

/// Whether a line is `scbook 1`.
fn is_version(alloc: Global, line: &[u8]) -> Result<bool, NoMemory>
    ensures { IfOk result (λ b. IsTrue b ↔ IsVersion line.now) }
{
    let words = words_of(alloc, line)?;
    Ok(are_version(&words))
}

/// Whether these words are `scbook` and `1`.
fn are_version(words: &[&[u8]]) -> bool
    ensures { IsTrue result ↔ (texts words.now ≡ codes "scbook" ∷ (codes "1" ∷ [])) }
{
    match two(words) {
        Some((word, number)) => is_word(word, "scbook") && is_word(number, "1"),
        None => false,
    }
}

/// What these lines state, one after the other; so many lines stand before them.
fn read_lines(alloc: Global, body: &[u8], before: u64) -> Result<Draft, BookError>
    requires { before + length body.now < 2 ^ 64 }
    ensures fine { IfOk result (λ draft. AreFine nothing_stated (lines body.now) (stated_of draft)) }
    ensures kept { IfOk result (λ draft. IsKept draft) }
    ensures err { IfErr result (λ e. IsBodyRefusal before (lines body.now) e) }
{
    let mut draft = Draft::new(alloc);
    let mut number = before;
    let mut rest = body;
    while !rest.is_empty() {
        let (line, more) = split_line(rest);
        number += 1;
        take_line(alloc, &mut draft, line, number)?;
        rest = more;
    }
    Ok(draft)
}

/// Passes over the line with this number, or adds what it states.
fn take_line(alloc: Global, draft: &mut Draft, line: &[u8], number: u64) -> Result<(), BookError>
    requires { IsKept draft.old }
    ensures taken { OnOk result (IsTaken (stated_of draft.old) line.now (stated_of draft.new)) }
    ensures kept { OnOk result (IsKept draft.new) }
    ensures err { IfErr result (λ e. IsLineRefusal (stated_of draft.old) line.now number e) }
    ensures other { IfErr result (λ e. IsPassedOver line.now → ⊥) }
{
    if is_passed_over(line) {
        return Ok(());
    }
    read_line(alloc, draft, line, number)
}

/// Adds what the line with this number states.
fn read_line(alloc: Global, draft: &mut Draft, line: &[u8], number: u64) -> Result<(), BookError>
    requires { IsKept draft.old }
    ensures fine { OnOk result ((s : Statement) × (IsFine (stated_of draft.old) line.now s × (stated_of draft.new ≡ joined (stated_of draft.old) s))) }
    ensures kept { OnOk result (IsKept draft.new) }
    ensures err { IfErr result (λ e. IsLineRefusal (stated_of draft.old) line.now number e) }
{
    let statement = stated(alloc, line, number)?;
    if !is_new(draft, &statement) {
        return Err(BookError::Doubled { line: number });
    }
    if !knows_kinds(draft, &statement) {
        return Err(BookError::UnknownKind { line: number });
    }
    if let Some(over) = over(draft, &statement) {
        return Err(BookError::LimitOver {
            line: number,
            number: over,
        });
    }
    draft.add(alloc, statement)?;
    Ok(())
}

/// What the line with this number states.
fn stated(alloc: Global, line: &[u8], number: u64) -> Result<Statement, BookError>
    ensures ok { IfOk result (λ s. States line.now s) }
    ensures few { IfOk result (λ s. HasSmallCounts s) }
    ensures err { (stated : Stated) → IfErr result (λ e. IsLineRefusal stated line.now number e) }
{
    match statement_of(alloc, line) {
        Ok(statement) => Ok(statement),
        Err(LineError::Fault(why)) => Err(BookError::BadLine { line: number, why }),
        Err(LineError::Memory) => Err(BookError::Memory),
    }
}
