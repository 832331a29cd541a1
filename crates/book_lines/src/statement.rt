//! What a line of a book states, its numbers however large. x goes right and y goes down.

use crate::book_word::BookWord;
use book_parts::{Name, Numbers};
use life_cells::{Cell, CellSet};

/// What a body word draws.
#[derive(Drop)]
pub enum Body {
    /// These live cells, where the body stands.
    Drawn(CellSet),
    /// So many live cells, which are more than a book may have; not one of them is looked at.
    TooMany(u64),
}

/// A body and its place.
#[derive(Drop)]
pub struct Placed {
    /// Where its first item stands.
    pub at: Cell,
    /// What it draws there.
    pub body: Body,
}

/// What a setting's line states.
#[derive(Drop)]
pub struct SettingLine {
    /// The setting's word.
    pub word: BookWord,
    /// Its numbers, as many as it has limits.
    pub numbers: Numbers,
}

/// What a turn leaves, its kind by name.
#[derive(Drop)]
pub enum NamedEnd {
    /// Nothing.
    Close,
    /// A kind, shifted by (shift,shift).
    Move {
        /// The kind's name.
        kind: Name,
        /// SHIFT
        shift: i64,
    },
    /// A kind, shifted by (shift,shift), and a glider.
    Emit {
        /// The kind's name.
        kind: Name,
        /// SHIFT
        shift: i64,
        /// The glider's lane.
        lane: i64,
        /// The glider's index on it.
        j: i64,
    },
}

/// What an elbow's line states.
#[derive(Drop)]
pub struct ElbowLine {
    /// The kind's name.
    pub name: Name,
    /// Its body.
    pub placed: Placed,
}

/// What a turn's line states, kinds by their names.
#[derive(Drop)]
pub struct TurnLine {
    /// The turn's name.
    pub name: Name,
    /// The name of the kind that it begins with.
    pub kind: Name,
    /// What it leaves.
    pub end: NamedEnd,
    /// How many generations it takes.
    pub n: i64,
    /// The delays of its gliders, in generations.
    pub delays: Numbers,
}

/// What a salvo's line states.
#[derive(Drop)]
pub struct SalvoLine {
    /// The salvo's name.
    pub name: Name,
    /// The lanes of its gliders, in order.
    pub lanes: Numbers,
    /// What it builds, if anything.
    pub product: Option<Placed>,
    /// Where it leaves the hand, if it leaves one.
    pub hand: Option<Cell>,
}

/// What a line of a book states.
#[derive(Drop)]
pub enum Statement {
    /// `WORD N ..`: the numbers of a setting
    Setting(SettingLine),
    /// `hand BODY`
    Hand(Body),
    /// `elbow NAME X Y BODY`
    Elbow(ElbowLine),
    /// `start NAME`
    Start(Name),
    /// `turn NAME KIND`, what it leaves, and its delays
    Turn(TurnLine),
    /// `salvo NAME`, its lanes, its product and the hand's place
    Salvo(SalvoLine),
}
