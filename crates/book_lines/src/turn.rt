//! The lines of turns: `NAME KIND`, what the turn leaves, `:`, and its delays.

ghost use Rattle.std.specs.Prelude.{◌≡◌, ◌≢◌, codes, ℕ, ◌<◌, ◌^◌, ℤ, List, [], ◌∷◌, ◌↔◌, length, IsTrue, IfOk, IfSome, IfNone};
ghost use Rattle.book_parts.specs.Limits.{IsName};
ghost use Rattle.book_lines.specs.declared.statement.NamedEnd.{NamedEnd};
ghost use Rattle.book_lines.specs.declared.statement.TurnLine.{TurnLine};
ghost use Rattle.book_lines.specs.Lines.{texts};
ghost use Rattle.book_lines.specs.Values.{Level};
ghost use Rattle.book_lines.specs.Forms.{IsEnding, IsTurnLine};
ghost use Rattle.book_lines.specs.Cuts.{IsMove, IsEmit, IsTurnCut};
ghost use Rattle.book_lines.specs.Reads.{Reads, ReadsOrErrs};

use crate::fault::{LineError, LineFault};
use crate::items::{first, is_word, may_stand, split_colon};
use crate::name::name;
use crate::numbers::{are_numbers, is_one_number, is_pair, numbers, one_number, pair, two_numbers};
use crate::statement::{NamedEnd, TurnLine};
use book_parts::Name;
use life_cells::NoMemory;
use std::alloc::Global;

/// What a turn leaves, and how many generations it takes.
#[derive(Drop)]
struct TimedEnd {
    end: NamedEnd,
    n: i64,
}

/// `KIND SHIFT N`, and the items behind.
#[derive(Clone, Copy)]
struct NextKindItems<'a, 'b> {
    kind: &'a str,
    shift: &'a [u8],
    n: &'a [u8],
    more: &'b [&'a [u8]],
}

impl NextKindItems<'_, '_> {
    /// Whether its texts may stand for numbers.
    fn may_stand(self) -> bool
        ensures { IsTrue result ↔ ((self.entry.shift.now ≢ codes ":") × (self.entry.n.now ≢ codes ":")) }
    {
        may_stand(self.shift) && may_stand(self.n)
    }
}

/// The parts of a turn's line.
#[derive(Clone, Copy)]
struct TurnItems<'a, 'b> {
    name: &'a str,
    kind: &'a str,
    ending: &'b [&'a [u8]],
    delays: &'b [&'a [u8]],
}

/// What a turn's line states.
pub fn turn(alloc: Global, items: &[&[u8]]) -> Result<TurnLine, LineError>
    ensures turn { ReadsOrErrs (λ level turn. IsTurnLine level turn (texts items.now)) result }
    ensures few { IfOk result (λ turn. length turn.delays < 2 ^ 63) }
{
    let Some(parts) = turn_items(items) else {
        return Err(LineError::Fault(LineFault::Form));
    };
    let Some(ending) = ending_of(alloc, parts.ending)? else {
        return Err(LineError::Fault(LineFault::Number));
    };
    let Some(delays) = numbers(alloc, parts.delays)? else {
        return Err(LineError::Fault(LineFault::Number));
    };
    let TimedEnd { end, n } = ending;
    Ok(TurnLine {
        name: Name::from_text(alloc, parts.name)?,
        kind: Name::from_text(alloc, parts.kind)?,
        end,
        n,
        delays,
    })
}

/// The parts of a turn's line, where they have their forms.
fn turn_items<'a, 'b>(items: &'b [&'a [u8]]) -> Option<TurnItems<'a, 'b>>
    ensures some { IfSome result (λ cut. IsTurnCut (texts items.now) cut.name.now cut.kind.now (texts cut.ending.now) (texts cut.delays.now)) }
    ensures none { IfNone result ((turn : TurnLine) → IsTurnLine Level.Form turn (texts items.now) → ⊥) }
{
    let (own, behind) = first(items)?;
    let (kind, behind) = first(behind)?;
    let (ending, delays) = split_colon(behind)?;
    if !is_ending(ending) {
        return None;
    }
    if !are_numbers(delays) {
        return None;
    }
    let own = name(own)?;
    let kind = name(kind)?;
    Some(TurnItems {
        name: own,
        kind,
        ending,
        delays,
    })
}

/// Whether these items have the form of what a turn leaves.
fn is_ending(items: &[&[u8]]) -> bool
    ensures { IsTrue result ↔ ((end : NamedEnd) × ((n : ℤ) × IsEnding Level.Form end n (texts items.now))) }
{
    let Some((word, behind)) = first(items) else {
        return false;
    };
    if is_word(word, "close") {
        return is_one_number(behind);
    }
    if is_word(word, "move") {
        return is_move(behind);
    }
    if is_word(word, "emit") {
        return is_emit(behind);
    }
    false
}

/// What these items say that a turn leaves.
fn ending_of(alloc: Global, items: &[&[u8]]) -> Result<Option<TimedEnd>, NoMemory>
    ensures { IfOk result (λ o. Reads (λ e. IsEnding Level.Numbers e.end e.n (texts items.now)) o) }
{
    let Some((word, behind)) = first(items) else {
        return Ok(None);
    };
    if is_word(word, "close") {
        let Some(n) = one_number(behind) else {
            return Ok(None);
        };
        let end = NamedEnd::Close;
        return Ok(Some(TimedEnd { end, n }));
    }
    if is_word(word, "move") {
        return move_ending(alloc, behind);
    }
    if is_word(word, "emit") {
        return emit_ending(alloc, behind);
    }
    Ok(None)
}

/// `KIND SHIFT N`, and the items behind.
fn next_kind_items<'a, 'b>(items: &'b [&'a [u8]]) -> Option<NextKindItems<'a, 'b>>
    ensures some { IfSome result (λ s. (texts items.now ≡ s.kind.now ∷ (s.shift.now ∷ (s.n.now ∷ texts s.more.now))) × IsName s.kind.now) }
    ensures none { IfNone result ((kind shift n : List ℕ) (more : List (List ℕ)) → texts items.now ≡ kind ∷ (shift ∷ (n ∷ more)) → IsName kind → ⊥) }
{
    let (kind, behind) = first(items)?;
    let (shift, behind) = first(behind)?;
    let (n, more) = first(behind)?;
    let kind = name(kind)?;
    Some(NextKindItems {
        kind,
        shift,
        n,
        more,
    })
}

/// Whether these items have the form `KIND SHIFT N`.
fn is_move(items: &[&[u8]]) -> bool
    ensures { IsTrue result ↔ ((end : NamedEnd) × ((n : ℤ) × IsMove Level.Form end n (texts items.now))) }
{
    match next_kind_items(items) {
        Some(next) => next.more.is_empty() && next.may_stand(),
        None => false,
    }
}

/// Whether these items have the form `KIND SHIFT N LANE J`.
fn is_emit(items: &[&[u8]]) -> bool
    ensures { IsTrue result ↔ ((end : NamedEnd) × ((n : ℤ) × IsEmit Level.Form end n (texts items.now))) }
{
    match next_kind_items(items) {
        Some(next) => is_pair(next.more) && next.may_stand(),
        None => false,
    }
}

/// The move that `KIND SHIFT N` say.
fn move_ending(alloc: Global, items: &[&[u8]]) -> Result<Option<TimedEnd>, NoMemory>
    ensures { IfOk result (λ o. Reads (λ e. IsMove Level.Numbers e.end e.n (texts items.now)) o) }
{
    let Some(next) = next_kind_items(items) else {
        return Ok(None);
    };
    if !next.more.is_empty() {
        return Ok(None);
    }
    let Some((shift, n)) = two_numbers(next.shift, next.n) else {
        return Ok(None);
    };
    let kind = Name::from_text(alloc, next.kind)?;
    let end = NamedEnd::Move { kind, shift };
    Ok(Some(TimedEnd { end, n }))
}

/// The move and the thrown glider that `KIND SHIFT N LANE J` say.
fn emit_ending(alloc: Global, items: &[&[u8]]) -> Result<Option<TimedEnd>, NoMemory>
    ensures { IfOk result (λ o. Reads (λ e. IsEmit Level.Numbers e.end e.n (texts items.now)) o) }
{
    let Some(next) = next_kind_items(items) else {
        return Ok(None);
    };
    let Some((shift, n)) = two_numbers(next.shift, next.n) else {
        return Ok(None);
    };
    let Some(glider) = pair(next.more) else {
        return Ok(None);
    };
    let kind = Name::from_text(alloc, next.kind)?;
    let end = NamedEnd::Emit {
        kind,
        shift,
        lane: glider.x,
        j: glider.y,
    };
    Ok(Some(TimedEnd { end, n }))
}
