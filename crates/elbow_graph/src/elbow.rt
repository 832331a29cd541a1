//! Where the elbow is, and where a turn leads it.

ghost use Rattle.std.specs.Prelude.{pos, ◌≤ℤ◌, IfSome, IfNone};
ghost use Rattle.elbow_graph.specs.Elbows.{Leads};
ghost use Rattle.elbow_graph.specs.Exits.{exit_of};
ghost use Rattle.elbow_graph.specs.SameElbowLaws.{same_elbow};

use crate::exit::Exit;
use book_parts::RawTurn;
use breadth_search::Key;

/// An elbow in the plane.
#[derive(Clone, Copy, Debug, PartialEq, Eq, Hash)]
pub struct Elbow {
    /// The number of its kind, counted from 1.
    pub kind: usize,
    /// How far it is moved, by (shift,shift).
    pub shift: i64,
}

impl Key for Elbow {
    ghost same = { same_elbow };
}

/// The elbow that a turn leaves, where it begins at this one: none where its kind is another, where it closes, and where the shift
/// would not be from -span to span.
pub fn elbow_after(turn: &RawTurn, from: Elbow, span: i64) -> Option<Elbow>
    requires { pos 0 ≤ℤ span }
    ensures some { IfSome result (λ to. Leads span (exit_of turn.now) from to) }
    ensures none { IfNone result ((to : Elbow) → Leads span (exit_of turn.now) from to → ⊥) }
{
    Exit::of(turn).leads(from, span)
}
