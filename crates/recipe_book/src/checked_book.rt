//! A book that was checked.

ghost use Rattle.std.specs.Prelude.{◌≡◌};
ghost use Rattle.life_cells.specs.Cells.{alive};
ghost use Rattle.recipe_book.specs.ByShape.{AreNumbersOf};

use book_parts::{RawKind, Settings};
use indexmap::IndexMap;
use life_cells::CellSet;
use life_islands::Shape;
use recipe_hit::{CheckedSalvo, Hand};
use recipe_turn::{CheckedTurn, Kinds};
use std::marker::Model;

/// A book whose kinds and hand are still and in place, with exactly its sound turns and salvos.
#[derive(Drop)]
pub struct CheckedBook {
    pub(crate) settings: Settings,
    pub(crate) kinds: Kinds,
    pub(crate) start: usize,
    pub(crate) hand: Hand,
    pub(crate) turns: Vec<CheckedTurn>,
    pub(crate) salvos: Vec<CheckedSalvo>,
    pub(crate) index: IndexMap<Shape, Vec<usize>>,
}

impl Model for CheckedBook {
    ghost use Rattle.std.specs.Prelude.{◌≡◌};
    ghost use Rattle.recipe_book.specs.Checked.{CheckedEntries, coded_entries, IsCheckedBook};
    ghost use Rattle.recipe_book.specs.ByShape.{IsIndex};

    ghost Value = { CheckedEntries };

    ghost coded = { coded_entries };

    ghost view = { λ b. record { settings = b.settings; kinds = b.kinds.raw; start = b.start; hand = b.hand; turns = b.turns.items; salvos = b.salvos.items } };

    ghost invariant = { λ b. (b.kinds.settings ≡ b.settings) × (IsIndex b.salvos.items b.index.entries
        × IsCheckedBook (record { settings = b.settings; kinds = b.kinds.raw; start = b.start; hand = b.hand; turns = b.turns.items; salvos = b.salvos.items })) };
}

impl CheckedBook {
    ghost use Rattle.recipe_book.specs.Checked.{IsCheckedBook};

    /// What holds for the whole book. It takes no memory.
    pub fn settings(&self) -> &Settings
        ensures settings { result.now ≡ self.now.settings }
        ensures checked { IsCheckedBook self.now }
    {
        &self.settings
    }

    /// The kinds of elbow. It takes no memory.
    pub fn kinds(&self) -> &[RawKind]
        ensures { result.now ≡ self.now.kinds }
    {
        self.kinds.raw()
    }

    /// The number of the kind that the stream begins at, counted from 1.
    pub fn start(&self) -> usize
        ensures { result ≡ self.now.start }
    {
        self.start
    }

    /// The hand, at place (0,0). It takes no memory.
    pub fn hand(&self) -> &CellSet
        ensures { result.now ≡ self.now.hand }
    {
        self.hand.cells()
    }

    /// The kinds with which the turns were checked. It takes no memory.
    pub fn checked_kinds(&self) -> &Kinds
        ensures kinds { result.now.raw ≡ self.now.kinds }
        ensures settings { result.now.settings ≡ self.now.settings }
    {
        &self.kinds
    }

    /// The hand with which the salvos were checked. It takes no memory.
    pub fn checked_hand(&self) -> &Hand
        ensures { result.now ≡ self.now.hand }
    {
        &self.hand
    }

    /// The sound turns, in book order. It takes no memory.
    pub fn turns(&self) -> &[CheckedTurn]
        ensures { result.now ≡ self.now.turns }
    {
        &self.turns
    }

    /// The sound salvos, in book order. It takes no memory.
    pub fn salvos(&self) -> &[CheckedSalvo]
        ensures { result.now ≡ self.now.salvos }
    {
        &self.salvos
    }

    /// The numbers of exactly the sound salvos that build this shape, ascending; they count from 1 and count sound salvos alone. There are
    /// none where no salvo builds it. It takes no memory.
    pub fn by_shape(&self, shape: &Shape) -> &[usize]
        ensures { AreNumbersOf self.now.salvos (alive shape.now) result.now }
    {
        match self.index.get(shape) {
            Some(numbers) => numbers,
            None => &[],
        }
    }
}
