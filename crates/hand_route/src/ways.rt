//! The ways of the hand from a place.

ghost use Rattle.std.specs.Prelude.{◌≡◌, ◌∷◌, [], ◌++◌, ◌≤◌, ◌<◌, ◌^◌, ◌+ℤ◌, ℕ, List, length, get_or, IsTrue, IsFalse, IfOk, OnErr, IfSome, IfNone, Some};
ghost use Rattle.std.specs.List.{slice_get};
ghost use Rattle.life_cells.specs.declared.bounds.Bounds.{Bounds};
ghost use Rattle.life_cells.specs.Boxes.{InBox, IsCellInRange};
ghost use Rattle.life_cells.specs.Cells.{cell};
ghost use Rattle.life_cells.specs.Listed.{same_cell};
ghost use Rattle.breadth_search.specs.First.{IsGrown, IsLabelling};
ghost use Rattle.breadth_search.specs.Search.{first_of};
ghost use Rattle.breadth_search.specs.Leads.{IsFirstEnd};
ghost use Rattle.breadth_search.specs.Walks.{IsLeastTo, IsReached};
ghost use Rattle.hand_route.specs.Lists.{IsHandList, IsFarewell, IsLeastHandList, IsLeastFarewell};
ghost use Rattle.hand_route.specs.Rooms.{IsRoom};
ghost use Rattle.hand_route.specs.Carriers.{IsCarrier};
ghost use Rattle.hand_route.specs.Ways.{ground, site_of, carries, takes, CarriesOn, CarriesBack, IsNextCarrier, NoCarrierPast, IsKept};

use crate::clearing::is_salvo_clear;
use crate::found::Found;
use crate::salvos::{Carrier, HandSalvos};
use breadth_search::Label;
use lane_clear::BuiltSet;
use life_cells::{Bounds, Cell, NoMemory};
use std::alloc::Global;
use std::marker::Model;

/// The places of a room to which salvos carry the hand from one of them, with the least list to each, in the order of these lists. They are
/// found only as far as they are asked for. Contracts see among what the hand moves, the place at which the lists begin, the places that are
/// found, and the lists to them.
#[derive(Drop)]
pub struct HandWays<'a> {
    salvos: &'a HandSalvos<'a>,
    built: &'a BuiltSet,
    from: Cell,
    found: Found,
    /// The place whose turn it is, by its number.
    place: usize,
    /// The greatest number of a salvo that was tried there.
    tried: usize,
}

impl<'a> Model for HandWays<'a> {
    ghost use Rattle.life_cells.specs.declared.cell.Cell.{Cell};
    ghost use Rattle.breadth_search.specs.Labelled.{Labelled, labelled_code};
    ghost use Rattle.breadth_search.specs.Labels.{lists_of};
    ghost use Rattle.life_cells.specs.Cells.{coded_cell};
    ghost use Rattle.hand_route.specs.Ways.{Ground, coded_ground, ground, IsKept};

    ghost Value = { Labelled Ground Cell };

    ghost coded = { labelled_code coded_ground coded_cell };

    ghost view = { λ w. record { graph = ground w.salvos.now w.built.now w.found.room; from = w.from; states = w.found.cells; lists = lists_of w.found.labels; tried = w.place } };

    ghost invariant = { λ w. IsKept (ground w.salvos.now w.built.now w.found.room) w.from w.place w.tried w.found.cells w.found.labels };
}

impl<'a> HandWays<'a> {
    /// The ways from a place of the room, among what is built.
    pub fn start(
        alloc: Global,
        salvos: &'a HandSalvos<'a>,
        built: &'a BuiltSet,
        room: Bounds,
        from: Cell,
    ) -> Result<HandWays<'a>, NoMemory>
        requires room { IsRoom room }
        requires from { InBox room from.x from.y }
        ensures among { IfOk result (λ ways. ways.graph ≡ ground salvos.now built.now room) }
        ensures from { IfOk result (λ ways. ways.from ≡ from) }
    {
        let found = Found::start(alloc, room, from)?;
        Ok(HandWays {
            salvos,
            built,
            from,
            found,
            place: 0,
            tried: 0,
        })
    }

    /// How many places are found.
    pub fn len(&self) -> usize
        ensures len { result ≡ length self.now.states }
        ensures labelling { IsLabelling carries same_cell self.now }
    {
        self.found.len()
    }

    /// The least list of salvos that carry the hand to a place, by their numbers from 1 on: none where it is there. Each of their hits is
    /// clear of what is built, at the place before its salvo, and all places are in the room. None exactly where there is no such list.
    pub fn list_to(&mut self, alloc: Global, to: Cell) -> Result<Option<Vec<usize>>, NoMemory>
        ensures among { self.new.graph ≡ self.old.graph }
        ensures from { self.new.from ≡ self.old.from }
        ensures grown { IsGrown self.old.states self.new.states }
        ensures some { IfOk result (λ found. IfSome found (λ list. IsLeastHandList (site_of self.old.graph) self.old.from list.items to)) }
        ensures none { IfOk result (λ found. IfNone found ((list : List ℕ) → IsHandList (site_of self.old.graph) self.old.from list to → ⊥)) }
    {
        match self.find(to)? {
            Some(number) => Ok(Some(self.list_of(alloc, number)?)),
            None => Ok(None),
        }
    }

    /// The least list of salvos that take the hand away, by their numbers from 1 on: the last of them leaves no hand, and the others carry
    /// it as those of a list to a place. None exactly where there is no such list.
    pub fn farewell(&mut self, alloc: Global) -> Result<Option<Vec<usize>>, NoMemory>
        ensures among { self.new.graph ≡ self.old.graph }
        ensures from { self.new.from ≡ self.old.from }
        ensures grown { IsGrown self.old.states self.new.states }
        ensures some { IfOk result (λ found. IfSome found (λ list. IsLeastFarewell (site_of self.old.graph) self.old.from list.items)) }
        ensures none { IfOk result (λ found. IfNone found ((list : List ℕ) → IsFarewell (site_of self.old.graph) self.old.from list → ⊥)) }
    {
        let mut number = 0;
        'places: while let Some(at) = self.come_to(number)? {
            if let Some(last) = first_taker(self.salvos, self.built, at) {
                let mut list = self.list_of(alloc, number)?;
                list.push(last)?;
                return Ok(Some(list));
            }
            number += 1;
        }
        Ok(None)
    }

    /// The least list to the place with a number.
    fn list_of(&self, alloc: Global, number: usize) -> Result<Vec<usize>, NoMemory>
        requires { number < length self.now.states }
        ensures list { IfOk result (λ list. list.items ≡ get_or self.now.lists number []) }
        ensures least { IfOk result (λ list. IsLeastTo (carries self.now.graph) self.now.from (get_or self.now.states number self.now.from) list.items) }
    {
        self.found.list_to(alloc, number)
    }

    /// The place with a number: it is found now, if it is the next. None where fewer are come to.
    fn come_to(&mut self, number: usize) -> Result<Option<Cell>, NoMemory>
        requires { number ≤ length self.old.states }
        ensures among { self.new.graph ≡ self.old.graph }
        ensures from { self.new.from ≡ self.old.from }
        ensures grown { IsGrown self.old.states self.new.states }
        ensures some { IfOk result (λ found. IfSome found (λ at. slice_get self.new.states number ≡ Some at)) }
        ensures none { IfOk result (λ found. IfNone found (length self.new.states ≡ number)) }
        ensures near { IfOk result (λ found. IfSome found (IsCellInRange (2 ^ 51))) }
        ensures whole { IfOk result (λ found. IfNone found (length self.new.states ≤ self.new.tried)) }
        ensures small { number < 2 ^ 63 }
        ensures labelling { IsLabelling carries same_cell self.new }
    {
        if number < self.len() {
            return Ok(self.found.at(number));
        }
        self.grow()
    }

    /// The number of a place; places are found until it is one of them. None exactly where the hand is never carried there.
    fn find(&mut self, to: Cell) -> Result<Option<usize>, NoMemory>
        ensures among { self.new.graph ≡ self.old.graph }
        ensures from { self.new.from ≡ self.old.from }
        ensures grown { IsGrown self.old.states self.new.states }
        ensures some { IfOk result (λ found. IfSome found (λ number. (number < length self.new.states) × (slice_get self.new.states number ≡ Some to))) }
        ensures none { IfOk result (λ found. IfNone found (IsReached (carries self.old.graph) self.old.from to → ⊥)) }
    {
        if let Some(number) = self.found.number_of(to) {
            return Ok(Some(number));
        }
        'places: loop {
            let number = self.len();
            let Some(next) = self.grow()? else {
                return Ok(None);
            };
            if next == to {
                return Ok(Some(number));
            }
        }
    }

    /// Finds the next place in the order of the least lists: none where all to which the hand is carried are found. Without memory the same
    /// places are found as before.
    fn grow(&mut self) -> Result<Option<Cell>, NoMemory>
        ensures among { self.new.graph ≡ self.old.graph }
        ensures from { self.new.from ≡ self.old.from }
        ensures some { IfOk result (λ grown. IfSome grown (λ next. self.new.states ≡ self.old.states ++ next ∷ [])) }
        ensures none { IfOk result (λ grown. IfNone grown (self.new.states ≡ self.old.states)) }
        ensures near { IfOk result (λ grown. IfSome grown (IsCellInRange (2 ^ 51))) }
        ensures whole { IfOk result (λ grown. IfNone grown (length self.new.states ≤ self.new.tried)) }
        ensures small { length self.old.states < 2 ^ 63 }
        ensures err { OnErr result (self.new.states ≡ self.old.states) }
        ensures labelling { IsLabelling carries same_cell self.new }
    {
        'places: while let Some(at) = self.found.at(self.place) {
            let grown = grow_at(
                self.salvos,
                self.built,
                at,
                self.place,
                &mut self.tried,
                &mut self.found,
            )?;
            if let Some(next) = grown {
                return Ok(Some(next));
            }
            self.place += 1;
            self.tried = 0;
        }
        Ok(None)
    }
}

/// Tries the salvos that are left at a place, up to one that carries the hand to a place that was not found.
fn grow_at(
    salvos: &HandSalvos,
    built: &BuiltSet,
    at: Cell,
    place: usize,
    tried: &mut usize,
    found: &mut Found,
) -> Result<Option<Cell>, NoMemory>
    requires room { IsRoom found.old.room }
    requires at { slice_get found.old.cells place ≡ Some at }
    requires near { IsCellInRange (2 ^ 51) at }
    requires kept { IsKept (ground salvos.now built.now found.old.room) (first_of found.old.cells at) place tried.old found.old.cells found.old.labels }
    ensures room { found.new.room ≡ found.old.room }
    ensures kept { IsKept (ground salvos.now built.now found.new.room) (first_of found.old.cells at) place tried.new found.new.cells found.new.labels }
    ensures some { IfOk result (λ grown. IfSome grown (λ next. found.new.cells ≡ found.old.cells ++ next ∷ [])) }
    ensures near { IfOk result (λ grown. IfSome grown (IsCellInRange (2 ^ 51))) }
    ensures none { IfOk result (λ grown. IfNone grown (found.new ≡ found.old)) }
    ensures over { IfOk result (λ grown. IfNone grown (NoCarrierPast (ground salvos.now built.now found.old.room) found.old.cells at tried.new)) }
    ensures err { OnErr result (found.new ≡ found.old) }
{
    let Some(carrier) = next_carrier(salvos, built, found, at, *tried) else {
        return Ok(None);
    };
    let next = carried(at, carrier.by);
    let label = Label {
        before: place,
        number: carrier.number,
    };
    found.add(next, label)?;
    *tried = carrier.number;
    Ok(Some(next))
}

/// Where a hand is that was carried so far.
fn carried(from: Cell, by: Cell) -> Cell
    requires from { IsCellInRange (2 ^ 51) from }
    requires by { IsCellInRange (2 ^ 51) by }
    ensures { result ≡ cell (from.x +ℤ by.x) (from.y +ℤ by.y) }
{
    Cell {
        x: from.x + by.x,
        y: from.y + by.y,
    }
}

/// Whether a salvo carries the hand from a place to one in the room that was not found.
fn carries_on(
    salvos: &HandSalvos,
    built: &BuiltSet,
    found: &Found,
    at: Cell,
    carrier: Carrier,
) -> bool
    requires carrier { IsCarrier salvos.now.salvos carrier }
    requires at { IsCellInRange (2 ^ 51) at }
    ensures yes { IsTrue result → CarriesOn (ground salvos.now built.now found.now.room) found.now.cells at carrier }
    ensures no { IsFalse result → CarriesBack (ground salvos.now built.now found.now.room) found.now.cells at carrier.number }
{
    if !found.is_new(carried(at, carrier.by)) {
        return false;
    }
    is_salvo_clear(salvos.settings(), built, salvos.salvo(carrier.number), at)
}

/// The first salvo past a number that carries the hand from a place to one in the room that was not found.
fn next_carrier(
    salvos: &HandSalvos,
    built: &BuiltSet,
    found: &Found,
    at: Cell,
    tried: usize,
) -> Option<Carrier>
    requires { IsCellInRange (2 ^ 51) at }
    ensures some { IfSome result (IsNextCarrier (ground salvos.now built.now found.now.room) found.now.cells at tried) }
    ensures none { IfNone result (NoCarrierPast (ground salvos.now built.now found.now.room) found.now.cells at tried) }
{
    for carrier in salvos.carriers() {
        if carrier.number > tried && carries_on(salvos, built, found, at, *carrier) {
            return Some(*carrier);
        }
    }
    None
}

/// The first salvo that takes the hand away from a place.
fn first_taker(salvos: &HandSalvos, built: &BuiltSet, at: Cell) -> Option<usize>
    requires { IsCellInRange (2 ^ 51) at }
    ensures { (room : Bounds) → IsFirstEnd (takes (ground salvos.now built.now room)) at result }
{
    for number in salvos.takers() {
        if is_salvo_clear(salvos.settings(), built, salvos.salvo(*number), at) {
            return Some(*number);
        }
    }
    None
}
