//! What turns do to the elbow, without the rest of them.

ghost use Rattle.std.specs.Prelude.{◌≡◌, pos, neg_ℤ, ◌+ℤ◌, ◌≤ℤ◌, IfSome, IfNone};
ghost use Rattle.elbow_graph.specs.Elbows.{elbow, IsInSpan, Leads};
ghost use Rattle.elbow_graph.specs.Exits.{exit_of};

use crate::elbow::Elbow;
use book_parts::{RawTurn, TurnEnd};

/// What a turn does to the elbow.
#[derive(Clone, Copy, Debug, PartialEq, Eq)]
pub struct Exit {
    /// The number of the kind that it begins at, counted from 1.
    pub kind: usize,
    /// What it leaves.
    pub end: TurnEnd,
}

impl Exit {
    /// What a turn does to the elbow.
    pub fn of(turn: &RawTurn) -> Self
        ensures { result ≡ exit_of turn.now }
    {
        Exit {
            kind: turn.kind,
            end: turn.end,
        }
    }

    /// The elbow that it leaves, where it begins at this one: none where its kind is another, where it closes, and where the shift
    /// would not be from -span to span.
    pub fn leads(self, from: Elbow, span: i64) -> Option<Elbow>
        requires { pos 0 ≤ℤ span }
        ensures some { IfSome result (λ to. Leads span self from to) }
        ensures none { IfNone result ((to : Elbow) → Leads span self from to → ⊥) }
    {
        if self.kind != from.kind {
            return None;
        }
        match self.end {
            TurnEnd::Close => None,
            TurnEnd::Move { kind, shift } => moved(kind, from.shift, shift, span),
            TurnEnd::Emit { kind, shift, .. } => moved(kind, from.shift, shift, span),
        }
    }
}

/// The elbow of a kind that is moved on, if its shift is from -span to span then.
fn moved(kind: usize, shift: i64, advance: i64, span: i64) -> Option<Elbow>
    requires { pos 0 ≤ℤ span }
    ensures some { IfSome result (λ to. (to ≡ elbow kind (shift +ℤ advance)) × IsInSpan span to) }
    ensures none { IfNone result (IsInSpan span (elbow kind (shift +ℤ advance)) → ⊥) }
{
    let shift = shift.checked_add(advance)?;
    if -span <= shift && shift <= span {
        Some(Elbow { kind, shift })
    } else {
        None
    }
}
