//! Turns at the elbow.

use crate::name::Name;
use crate::numbers::Numbers;

/// What a turn leaves. Kinds count from 1.
#[derive(Clone, Copy, Debug, PartialEq, Eq)]
pub enum TurnEnd {
    /// Nothing.
    Close,
    /// An elbow of this kind, moved by (shift,shift).
    Move {
        kind: usize,
        shift: i64,
    },
    /// The same, and a salvo glider of this lane and index at the turn's end.
    Emit {
        kind: usize,
        shift: i64,
        lane: i64,
        j: i64,
    },
}

/// A turn, as a book states it.
#[derive(Debug, Drop, PartialEq, Eq)]
pub struct RawTurn {
    /// Its name.
    pub name: Name,
    /// The number of the kind that it begins at, counted from 1.
    pub kind: usize,
    /// What it leaves.
    pub end: TurnEnd,
    /// How many generations it takes.
    pub n: u32,
    /// The delays of its gliders, in generations.
    pub delays: Numbers,
}
