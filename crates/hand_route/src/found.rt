//! Places of a room to which the hand comes, with the way to each.

ghost use Rattle.std.specs.Prelude.{◌≡◌, ◌↔◌, ◌∷◌, [], ℕ, List, ◌<◌, ◌≤◌, ◌^◌, length, get_or, IsTrue, IfOk, OnOk, OnErr, IfSome, IfNone, Some};
ghost use Rattle.std.specs.List.{slice_get, Contains};
ghost use Rattle.life_cells.specs.Boxes.{InBox, IsCellInRange};
ghost use Rattle.breadth_search.specs.Labels.{AreLabelled, ArePrior, IsAdded, IsSame};
ghost use Rattle.hand_route.specs.Rooms.{IsRoom, IsEntry};

use crate::room::{has, index, size};
use breadth_search::{Label, list_by_labels};
use life_cells::{Bounds, Cell, NoMemory};
use std::alloc::Global;
use std::marker::Model;

/// Places of a room in the order in which they were found, with a label for each but the first; and for each place of the room, row by row,
/// 0 where it was not found, and else how many were found up to it. Contracts see the room, the places and the labels.
#[derive(Drop)]
pub(crate) struct Found {
    room: Bounds,
    cells: Vec<Cell>,
    labels: Vec<Label>,
    table: Vec<usize>,
}

impl Model for Found {
    ghost use Rattle.hand_route.specs.Rooms.{IsRoom, Places, coded_places, IsTable};

    ghost Value = { Places };

    ghost coded = { coded_places };

    ghost view = { λ f. record { room = f.room; cells = f.cells.items; labels = f.labels.items } };

    ghost invariant = { λ f. IsRoom f.room × IsTable f.room f.cells.items f.table.items };
}

impl Found {
    /// The one place at which the ways of the hand begin.
    pub(crate) fn start(alloc: Global, room: Bounds, from: Cell) -> Result<Self, NoMemory>
        requires room { IsRoom room }
        requires from { InBox room from.x from.y }
        ensures { IfOk result (λ found. found ≡ record { room = room; cells = from ∷ []; labels = [] }) }
    {
        let mut table = vec![in alloc; 0; size(room)]?;
        table[index(room, from)] = 1;
        let mut cells = Vec::new(alloc);
        cells.push(from)?;
        Ok(Found {
            room,
            cells,
            labels: Vec::new(alloc),
            table,
        })
    }

    /// How many places were found.
    pub(crate) fn len(&self) -> usize
        ensures { result ≡ length self.now.cells }
    {
        self.cells.len()
    }

    /// The place with a number in the order in which they were found, counted from 0, if so many were found.
    pub(crate) fn at(&self, place: usize) -> Option<Cell>
        ensures at { result ≡ slice_get self.now.cells place }
        ensures near { IfSome result (IsCellInRange (2 ^ 51)) }
        ensures room { IsRoom self.now.room }
        ensures small { length self.now.cells < 2 ^ 63 }
    {
        self.cells.get(place).copied()
    }

    /// How many places were found up to this one, which is in the room; 0 where it was not found.
    fn entry(&self, at: Cell) -> usize
        requires { InBox self.now.room at.x at.y }
        ensures { IsEntry self.now.cells at result }
    {
        self.table[index(self.room, at)]
    }

    /// The number of a place in the order in which they were found, if it was found.
    pub(crate) fn number_of(&self, at: Cell) -> Option<usize>
        ensures some { IfSome result (λ place. slice_get self.now.cells place ≡ Some at) }
        ensures none { IfNone result (Contains self.now.cells at → ⊥) }
    {
        if !has(self.room, at) {
            return None;
        }
        self.entry(at).checked_sub(1)
    }

    /// Whether the place is in the room and was not found.
    pub(crate) fn is_new(&self, at: Cell) -> bool
        ensures { IsTrue result ↔ (InBox self.now.room at.x at.y × (Contains self.now.cells at → ⊥)) }
    {
        has(self.room, at) && self.entry(at) == 0
    }

    /// Adds a place of the room that was not found, with its label. Without memory nothing changes.
    pub(crate) fn add(&mut self, at: Cell, label: Label) -> Result<(), NoMemory>
        requires inside { InBox self.old.room at.x at.y }
        requires new { Contains self.old.cells at → ⊥ }
        ensures room { self.new.room ≡ self.old.room }
        ensures ok { OnOk result (IsAdded at label self.old.cells self.old.labels self.new.cells self.new.labels) }
        ensures err { OnErr result (self.new ≡ self.old) }
    {
        self.cells.reserve(1)?;
        self.labels.push(label)?;
        self.cells.push_reserved(at);
        self.table[index(self.room, at)] = self.cells.len();
        Ok(())
    }

    /// The numbers that lead to the place with a number.
    pub(crate) fn list_to(&self, alloc: Global, place: usize) -> Result<Vec<usize>, NoMemory>
        requires prior { ArePrior self.now.labels }
        requires within { place ≤ length self.now.labels }
        ensures { IfOk result (λ list. (lists : List (List ℕ)) → AreLabelled self.now.labels lists → list.items ≡ get_or lists place []) }
    {
        list_by_labels(alloc, &self.labels, place)
    }
}
