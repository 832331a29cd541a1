//! A whole book.

use crate::kind::RawKind;
use crate::salvo::RawSalvo;
use crate::settings::Settings;
use crate::turn::RawTurn;
use life_cells::CellSet;
use std::marker::Model;

/// A book, as a text states it. Contracts see what it says.
#[derive(Debug, Drop)]
pub struct RawBook {
    /// What holds for all of it.
    pub settings: Settings,
    /// The hand, at place (0,0).
    pub hand: CellSet,
    /// The kinds of elbow, in order.
    pub kinds: Vec<RawKind>,
    /// The number of the kind that the stream begins at, counted from 1.
    pub start: usize,
    /// The turns, in order.
    pub turns: Vec<RawTurn>,
    /// The salvos, in order.
    pub salvos: Vec<RawSalvo>,
}

impl Model for RawBook {
    ghost use Rattle.book_parts.specs.Said.{Said, coded_said};

    ghost Value = { Said };

    ghost coded = { coded_said };

    ghost view = { λ b. record { settings = b.settings; hand = b.hand; kinds = b.kinds.items; start = b.start; turns = b.turns.items; salvos = b.salvos.items } };
}
