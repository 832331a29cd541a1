//! The lines of `check`: one for each entry of a book, and how many are accepted.

ghost use Rattle.std.specs.Prelude.{◌≡◌, ◌++◌, IfOk, OnOk, map};
ghost use Rattle.std.specs.String.{string_bytes};
ghost use Rattle.life_cli.specs.Verdicts.{turn_reason, salvo_reason, verdict_text, turn_title, salvo_title, titles, verdict_lines, is_accepted, accepted, sum_line};

use book_parts::{RawBook, RawSalvo, RawTurn};
use recipe_book::Verdict;
use recipe_hit::SalvoRefusal;
use recipe_turn::TurnRefusal;
use std::alloc::{AllocError, Global};

fn turn_reason(alloc: Global, refusal: TurnRefusal) -> Result<String, AllocError>
    ensures { IfOk result (λ text. string_bytes text ≡ turn_reason refusal) }
{
    match refusal {
        TurnRefusal::Gap { place } => format!(in alloc; "gap {place}"),
        TurnRefusal::Short { n } => format!(in alloc; "short {n}"),
        TurnRefusal::EndDiffers { cell } => {
            let (x, y) = (cell.x, cell.y);
            format!(in alloc; "end {x} {y}")
        }
        TurnRefusal::Reach { generation, cell } => {
            let (x, y) = (cell.x, cell.y);
            format!(in alloc; "reach {generation} {x} {y}")
        }
        TurnRefusal::Tail { generation, cell } => {
            let (x, y) = (cell.x, cell.y);
            format!(in alloc; "tail {generation} {x} {y}")
        }
        TurnRefusal::Wall { u } => format!(in alloc; "wall {u}"),
        TurnRefusal::Memory => String::from_str(alloc, "memory"),
    }
}

fn salvo_reason(alloc: Global, refusal: SalvoRefusal) -> Result<String, AllocError>
    ensures { IfOk result (λ text. string_bytes text ≡ salvo_reason refusal) }
{
    match refusal {
        SalvoRefusal::Empty { place } => format!(in alloc; "empty {place}"),
        SalvoRefusal::NotSettled { place } => format!(in alloc; "unsettled {place}"),
        SalvoRefusal::EndDiffers { cell } => {
            let (x, y) = (cell.x, cell.y);
            format!(in alloc; "end {x} {y}")
        }
        SalvoRefusal::ProductSplit => String::from_str(alloc, "split"),
        SalvoRefusal::HandNear { cell } => {
            let (x, y) = (cell.x, cell.y);
            format!(in alloc; "near {x} {y}")
        }
        SalvoRefusal::Memory => String::from_str(alloc, "memory"),
    }
}

fn verdict_text(alloc: Global, verdict: Verdict) -> Result<String, AllocError>
    ensures { IfOk result (λ text. string_bytes text ≡ verdict_text verdict) }
{
    match verdict {
        Verdict::Accepted => String::from_str(alloc, "ok"),
        Verdict::Turn(refusal) => {
            let reason = turn_reason(alloc, refusal)?;
            format!(in alloc; "no {reason}")
        }
        Verdict::Salvo(refusal) => {
            let reason = salvo_reason(alloc, refusal)?;
            format!(in alloc; "no {reason}")
        }
    }
}

/// Appends the titles of turns.
fn push_turn_titles(
    alloc: Global,
    titles: &mut Vec<String>,
    turns: &[RawTurn],
) -> Result<(), AllocError>
    ensures { OnOk result (map string_bytes titles.new.items ≡ map string_bytes titles.old.items ++ map turn_title turns.now) }
{
    for turn in turns {
        let name = turn.name.text();
        let title = format!(in alloc; "turn {name}")?;
        titles.push(title)?;
    }
    Ok(())
}

/// Appends the titles of salvos.
fn push_salvo_titles(
    alloc: Global,
    titles: &mut Vec<String>,
    salvos: &[RawSalvo],
) -> Result<(), AllocError>
    ensures { OnOk result (map string_bytes titles.new.items ≡ map string_bytes titles.old.items ++ map salvo_title salvos.now) }
{
    for salvo in salvos {
        let name = salvo.name.text();
        let title = format!(in alloc; "salvo {name}")?;
        titles.push(title)?;
    }
    Ok(())
}

/// The titles of a book's turns and salvos.
pub(crate) fn titles_of(alloc: Global, book: &RawBook) -> Result<Vec<String>, AllocError>
    ensures { IfOk result (λ found. map string_bytes found.items ≡ titles book.now.turns book.now.salvos) }
{
    let mut titles = Vec::new(alloc);
    push_turn_titles(alloc, &mut titles, &book.turns)?;
    push_salvo_titles(alloc, &mut titles, &book.salvos)?;
    Ok(titles)
}

/// Whether a verdict accepts.
fn is_accepted(verdict: Verdict) -> bool
    ensures { result ≡ is_accepted verdict }
{
    match verdict {
        Verdict::Accepted => true,
        _ => false,
    }
}

/// How many verdicts accept.
fn accepted_of(verdicts: &[Verdict]) -> usize
    ensures { result ≡ accepted verdicts.now }
{
    verdicts
        .iter()
        .filter(|verdict| is_accepted(**verdict))
        .count()
}

/// The lines of the entries with these titles.
fn lines_of(alloc: Global, titles: &[String], verdicts: &[Verdict]) -> Result<String, AllocError>
    ensures { IfOk result (λ text. string_bytes text ≡ verdict_lines (map string_bytes titles.now) verdicts.now) }
{
    let mut text = String::new(alloc);
    let mut left = verdicts;
    for title in titles {
        let [verdict, more @ ..] = left else {
            return Ok(text);
        };
        let verdict = verdict_text(alloc, *verdict)?;
        write!(text, "{title} {verdict}\n")?;
        left = more;
    }
    Ok(text)
}

/// The last line.
fn sum_line(alloc: Global, verdicts: &[Verdict]) -> Result<String, AllocError>
    ensures { IfOk result (λ text. string_bytes text ≡ sum_line verdicts.now) }
{
    let accepted = accepted_of(verdicts);
    let all = verdicts.len();
    format!(in alloc; "accepted {accepted} of {all}\n")
}

/// The text of the verdicts on the entries with these titles.
pub(crate) fn text_of_verdicts(
    alloc: Global,
    titles: &[String],
    verdicts: &[Verdict],
) -> Result<Vec<u8>, AllocError>
    ensures { IfOk result (λ bytes. bytes.items ≡ verdict_lines (map string_bytes titles.now) verdicts.now ++ sum_line verdicts.now) }
{
    let mut bytes = Vec::new(alloc);
    bytes.extend_from_slice(lines_of(alloc, titles, verdicts)?.as_bytes())?;
    bytes.extend_from_slice(sum_line(alloc, verdicts)?.as_bytes())?;
    Ok(bytes)
}
