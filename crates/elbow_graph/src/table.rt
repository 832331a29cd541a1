//! By what turns are looked up.

ghost use Rattle.std.specs.Prelude.{◌≡◌};
ghost use Rattle.elbow_graph.specs.Tables.{key_in};
ghost use Rattle.elbow_graph.specs.SameKeyLaws.{same_key};

use crate::exit::Exit;
use book_parts::TurnEnd;
use breadth_search::Key;

/// Tables of turns.
#[derive(Clone, Copy, Debug, PartialEq, Eq)]
pub(crate) enum Table {
    /// The moves, by their kinds.
    Moves,
    /// The moves and the throws, by their kinds.
    Leading,
    /// The closing turns, by their kinds.
    Closing,
    /// The throws, by their kinds and lanes.
    Throws,
}

/// By what a turn is looked up.
#[derive(Clone, Copy, Debug, PartialEq, Eq, Hash)]
pub(crate) struct TurnKey {
    /// The number of the kind that it begins at, counted from 1.
    pub(crate) kind: usize,
    /// Among the throws, the lane on which it throws at shift 0.
    pub(crate) lane: Option<i128>,
}

impl Key for TurnKey {
    ghost same = { same_key };
}

impl Table {
    /// By what a turn is looked up in this table, if the table has it.
    pub(crate) fn key_of(self, exit: Exit) -> Option<TurnKey>
        ensures { result ≡ key_in self exit }
    {
        match self {
            Table::Moves => move_key(exit),
            Table::Leading => leading_key(exit),
            Table::Closing => closing_key(exit),
            Table::Throws => throw_key(exit),
        }
    }
}

/// A key by a kind alone.
fn kind_key(kind: usize) -> TurnKey
    ensures { result ≡ record { kind = kind; lane = None } }
{
    TurnKey { kind, lane: None }
}

/// The key of a move.
fn move_key(exit: Exit) -> Option<TurnKey>
    ensures { result ≡ key_in Table.Moves exit }
{
    match exit.end {
        TurnEnd::Move { .. } => Some(kind_key(exit.kind)),
        TurnEnd::Close => None,
        TurnEnd::Emit { .. } => None,
    }
}

/// The key of a move or a throw.
fn leading_key(exit: Exit) -> Option<TurnKey>
    ensures { result ≡ key_in Table.Leading exit }
{
    match exit.end {
        TurnEnd::Move { .. } => Some(kind_key(exit.kind)),
        TurnEnd::Close => None,
        TurnEnd::Emit { .. } => Some(kind_key(exit.kind)),
    }
}

/// The key of a closing turn.
fn closing_key(exit: Exit) -> Option<TurnKey>
    ensures { result ≡ key_in Table.Closing exit }
{
    match exit.end {
        TurnEnd::Move { .. } => None,
        TurnEnd::Close => Some(kind_key(exit.kind)),
        TurnEnd::Emit { .. } => None,
    }
}

/// The key of a throw.
fn throw_key(exit: Exit) -> Option<TurnKey>
    ensures { result ≡ key_in Table.Throws exit }
{
    match exit.end {
        TurnEnd::Move { .. } => None,
        TurnEnd::Close => None,
        TurnEnd::Emit { lane, .. } => Some(TurnKey {
            kind: exit.kind,
            lane: Some(i128::from(lane)),
        }),
    }
}
