//! Bodies and their places: `X Y BODY`, and the lines of the hand and of kinds.

ghost use Rattle.std.specs.Prelude.{◌≡◌, ◌≤◌, ◌^◌, ◌↔◌, IsTrue, IfOk};
ghost use Rattle.book_lines.specs.declared.statement.Placed.{Placed};
ghost use Rattle.book_lines.specs.Lines.{texts};
ghost use Rattle.book_lines.specs.Values.{Level, body_count};
ghost use Rattle.book_lines.specs.Forms.{IsBody, IsPlacedBody, IsElbowLine};
ghost use Rattle.book_lines.specs.Reads.{ReadsOrErrs};

use crate::body::body_at;
use crate::fault::{LineError, LineFault};
use crate::items::{first, have_no_colon, may_stand, only, three};
use crate::name::name;
use crate::numbers::place;
use crate::statement::{Body, ElbowLine, Placed};
use book_parts::Name;
use life_cells::Cell;
use std::alloc::Global;

/// What the line of the hand states.
pub fn hand(alloc: Global, items: &[&[u8]]) -> Result<Body, LineError>
    ensures body { ReadsOrErrs (λ level body. IsBody level body (texts items.now)) result }
    ensures few { IfOk result (λ body. body_count body ≤ 2 ^ 61) }
{
    let Some(word) = only(items) else {
        return Err(LineError::Fault(LineFault::Form));
    };
    if !may_stand(word) {
        return Err(LineError::Fault(LineFault::Form));
    }
    body_at(alloc, word, Cell { y: 0, x: 0 })
}

/// What the line of a kind states.
pub fn elbow(alloc: Global, items: &[&[u8]]) -> Result<ElbowLine, LineError>
    ensures elbow { ReadsOrErrs (λ level elbow. IsElbowLine level elbow (texts items.now)) result }
    ensures few { IfOk result (λ elbow. body_count elbow.placed.body ≤ 2 ^ 61) }
{
    let Some((word, behind)) = first(items) else {
        return Err(LineError::Fault(LineFault::Form));
    };
    let Some(name) = name(word) else {
        return Err(LineError::Fault(LineFault::Form));
    };
    let placed = placed(alloc, behind)?;
    let name = Name::from_text(alloc, name)?;
    Ok(ElbowLine { name, placed })
}

/// Whether these items have the form `X Y BODY`.
pub fn is_placed(items: &[&[u8]]) -> bool
    ensures { IsTrue result ↔ ((placed : Placed) × IsPlacedBody Level.Form placed (texts items.now)) }
{
    match three(items) {
        Some(_) => have_no_colon(items),
        None => false,
    }
}

/// The body and the place that `X Y BODY` are.
pub fn placed(alloc: Global, items: &[&[u8]]) -> Result<Placed, LineError>
    ensures placed { ReadsOrErrs (λ level placed. IsPlacedBody level placed (texts items.now)) result }
    ensures few { IfOk result (λ placed. body_count placed.body ≤ 2 ^ 61) }
{
    let Some((x, y, word)) = three(items) else {
        return Err(LineError::Fault(LineFault::Form));
    };
    if !have_no_colon(items) {
        return Err(LineError::Fault(LineFault::Form));
    }
    let Some(at) = place(x, y) else {
        return Err(LineError::Fault(LineFault::Number));
    };
    let body = body_at(alloc, word, at)?;
    Ok(Placed { at, body })
}
