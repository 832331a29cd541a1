//! What lists of turns are walked for.

/// What lists of turns are walked for.
#[derive(Clone, Copy, Debug, PartialEq, Eq)]
pub enum Goal {
    /// Each elbow that moves and throws lead to; no turn ends a list.
    Anywhere,
    /// That the elbow is closed: moves, and a closing turn last.
    Closed,
    /// A glider on this lane: moves, and last a turn that throws it, from a shift and to a shift within the span.
    Lane(i64),
}
