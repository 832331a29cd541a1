//! A labelling of states by the least lists that lead to them.

ghost use Rattle.std.specs.Prelude.{◌≡◌, ◌+◌, ◌∷◌, [], ◌++◌, ℕ, List, ◌<◌, ◌≤◌, ◌^◌, length, get_or, IfOk, OnErr, IfSome, IfNone, IsTrue, ◌↔◌};
ghost use Rattle.std.specs.List.{slice_get, Contains};
ghost use Rattle.breadth_search.specs.Labelled.{Labelled, labelled_code};
ghost use Rattle.breadth_search.specs.First.{IsLabelling, IsGrown};
ghost use Rattle.breadth_search.specs.Labels.{lists_of, IsAdded, IsSame};
ghost use Rattle.breadth_search.specs.Search.{bound_past, first_of, IsLast, IsKept};
ghost use Rattle.breadth_search.specs.Leads.{IsFirstLead};
ghost use Rattle.breadth_search.specs.Walks.{LeadOn, IsLeastTo, IsReached};

use crate::found::{Found, Label};
use crate::graph::{Graph, Lead};
use crate::key::Key;
use life_cells::NoMemory;
use std::alloc::Global;
use std::marker::Model;

/// The states that are reached from one, with the least list of numbers to each, in the order of these lists. It grows only as far as it
/// is asked. Contracts see the graph, the state at which the lists begin, the states that are labelled, and the lists to them.
#[derive(Drop)]
pub struct Labelling<S: Key, G: Graph<S>> {
    graph: G,
    from: S,
    found: Found<S>,
    /// The place of the state whose turn it is.
    place: usize,
    /// The number that led on last from there.
    number: Option<usize>,
}

impl<S: Key, G: Graph<S>> Model for Labelling<S, G> {
    ghost use Rattle.breadth_search.specs.Labelled.{Labelled, labelled_code};
    ghost use Rattle.breadth_search.specs.Labels.{lists_of};
    ghost use Rattle.breadth_search.specs.Search.{IsKept};

    ghost Value = { Labelled G S };

    ghost coded = { labelled_code G.code S.code };

    ghost view = { λ a. record { graph = a.graph; from = a.from; states = a.found.states.keys; lists = lists_of a.found.labels.items; tried = a.place } };

    ghost invariant = { λ a. IsKept (G.leads a.graph) S.eq a.from a.place a.number a.found.states.keys a.found.labels.items };
}

impl<S: Key, G: Graph<S>> Labelling<S, G> {
    /// The labelling of one state alone, at which the lists begin.
    pub fn start(alloc: Global, graph: G, from: S) -> Result<Self, NoMemory>
        ensures graph { IfOk result (λ labelling. labelling.graph ≡ graph) }
        ensures from { IfOk result (λ labelling. labelling.from ≡ from) }
        ensures states { IfOk result (λ labelling. labelling.states ≡ from ∷ []) }
    {
        let found = Found::start(alloc, from)?;
        Ok(Labelling {
            graph,
            from,
            found,
            place: 0,
            number: None,
        })
    }

    /// The graph.
    pub fn graph(&self) -> &G
        ensures { result.now ≡ self.now.graph }
    {
        &self.graph
    }

    /// How many states are labelled.
    pub fn len(&self) -> usize
        ensures len { result ≡ length self.now.states }
        ensures small { result < 2 ^ 63 }
        ensures labelling { IsLabelling G.leads S.eq self.now }
    {
        self.found.len()
    }

    /// Whether all states that are reached are known to be labelled.
    pub fn is_whole(&self) -> bool
        ensures known { IsTrue result ↔ (length self.now.states ≤ self.now.tried) }
        ensures whole { IsTrue result → (to : S) → IsReached (G.leads self.now.graph) self.now.from to → Contains self.now.states to }
    {
        self.place >= self.found.len()
    }

    /// The state at a place in the order of the least lists, counted from 0, if so many are labelled.
    pub fn at(&self, place: usize) -> Option<S>
        ensures { result ≡ slice_get self.now.states place }
    {
        self.found.at(place)
    }

    /// The place of a state, if it is labelled.
    pub fn place_of(&self, state: S) -> Option<usize>
        ensures some { IfSome result (λ place. (place < length self.now.states) × (slice_get self.now.states place ≡ Some state)) }
        ensures none { IfNone result (Contains self.now.states state → ⊥) }
    {
        self.found.place_of(state)
    }

    /// The least list to the state at a place.
    pub fn list_to(&self, alloc: Global, place: usize) -> Result<Vec<usize>, NoMemory>
        requires { place < length self.now.states }
        ensures list { IfOk result (λ list. list.items ≡ get_or self.now.lists place []) }
        ensures labelling { IsLabelling G.leads S.eq self.now }
        ensures least { IfOk result (λ list. IsLeastTo (G.leads self.now.graph) self.now.from (get_or self.now.states place self.now.from) list.items) }
    {
        self.found.list_to(alloc, place)
    }

    /// Labels the next state in the order of the least lists, and returns it: none where all that are reached are labelled. Without
    /// memory the same states are labelled as before.
    pub fn grow(&mut self) -> Result<Option<S>, NoMemory>
        ensures graph { self.new.graph ≡ self.old.graph }
        ensures from { self.new.from ≡ self.old.from }
        ensures some { IfOk result (λ grown. IfSome grown (λ next. self.new.states ≡ self.old.states ++ next ∷ [])) }
        ensures none { IfOk result (λ grown. IfNone grown (self.new.states ≡ self.old.states)) }
        ensures whole { IfOk result (λ grown. IfNone grown (length self.new.states ≤ self.new.tried)) }
        ensures err { OnErr result (self.new.states ≡ self.old.states) }
        ensures labelling { IsLabelling G.leads S.eq self.new }
    {
        'places: while let Some(at) = self.found.at(self.place) {
            let grown = grow_at(
                &self.graph,
                at,
                self.place,
                &mut self.number,
                &mut self.found,
            )?;
            if let Some(next) = grown {
                return Ok(Some(next));
            }
            self.place += 1;
            self.number = None;
        }
        Ok(None)
    }

    /// The state at a place in the order of the least lists: it is labelled now, if it is the next. None where fewer are reached.
    pub fn come_to(&mut self, place: usize) -> Result<Option<S>, NoMemory>
        requires { place ≤ length self.old.states }
        ensures graph { self.new.graph ≡ self.old.graph }
        ensures from { self.new.from ≡ self.old.from }
        ensures grown { IsGrown self.old.states self.new.states }
        ensures some { IfOk result (λ found. IfSome found (λ at. slice_get self.new.states place ≡ Some at)) }
        ensures none { IfOk result (λ found. IfNone found (length self.new.states ≡ place)) }
        ensures whole { IfOk result (λ found. IfNone found (length self.new.states ≤ self.new.tried)) }
        ensures small { place < 2 ^ 63 }
        ensures labelling { IsLabelling G.leads S.eq self.new }
    {
        if place < self.len() {
            return Ok(self.at(place));
        }
        self.grow()
    }

    /// The least list to a state; None exactly where no list leads there. States are labelled until it is one of them.
    pub fn least_list_to(&mut self, alloc: Global, to: S) -> Result<Option<Vec<usize>>, NoMemory>
        ensures graph { self.new.graph ≡ self.old.graph }
        ensures from { self.new.from ≡ self.old.from }
        ensures grown { IsGrown self.old.states self.new.states }
        ensures some { IfOk result (λ found. IfSome found (λ list. IsLeastTo (G.leads self.old.graph) self.old.from to list.items)) }
        ensures none { IfOk result (λ found. IfNone found ((list : List ℕ) → LeadOn (G.leads self.old.graph) self.old.from list to → ⊥)) }
    {
        match self.find(to)? {
            Some(place) => Ok(Some(self.list_to(alloc, place)?)),
            None => Ok(None),
        }
    }

    /// The place of a state; states are labelled until it is one of them. None exactly where it is not reached.
    fn find(&mut self, to: S) -> Result<Option<usize>, NoMemory>
        ensures graph { self.new.graph ≡ self.old.graph }
        ensures from { self.new.from ≡ self.old.from }
        ensures grown { IsGrown self.old.states self.new.states }
        ensures some { IfOk result (λ found. IfSome found (λ place. (place < length self.new.states) × (slice_get self.new.states place ≡ Some to))) }
        ensures none { IfOk result (λ found. IfNone found (IsReached (G.leads self.old.graph) self.old.from to → ⊥)) }
    {
        if let Some(place) = self.place_of(to) {
            return Ok(Some(place));
        }
        'states: loop {
            let place = self.len();
            let Some(next) = self.grow()? else {
                return Ok(None);
            };
            if next == to {
                return Ok(Some(place));
            }
        }
    }
}

/// The next number that leads on from a state, past the one that did last.
fn next_lead<S: Key, G: Graph<S>>(graph: &G, at: S, last: Option<usize>) -> Option<Lead<S>>
    requires { IsLast (G.leads graph.now) at last }
    ensures { IsFirstLead (G.leads graph.now) at (bound_past last) result }
{
    match last {
        None => graph.first(at),
        Some(number) => graph.after(at, number),
    }
}

/// Tries the numbers that are left at a place, up to one that leads to a state that has no label yet.
fn grow_at<S: Key, G: Graph<S>>(
    graph: &G,
    at: S,
    place: usize,
    last: &mut Option<usize>,
    found: &mut Found<S>,
) -> Result<Option<S>, NoMemory>
    requires at { slice_get found.old.states.keys place ≡ Some at }
    requires kept { IsKept (G.leads graph.now) S.eq (first_of found.old.states.keys at) place last.old found.old.states.keys found.old.labels.items }
    ensures kept { IsKept (G.leads graph.now) S.eq (first_of found.old.states.keys at) place last.new found.new.states.keys found.new.labels.items }
    ensures some { IfOk result (λ grown. IfSome grown (λ next. found.new.states.keys ≡ found.old.states.keys ++ next ∷ [])) }
    ensures none { IfOk result (λ grown. IfNone grown (IsSame found.old.states.keys found.old.labels.items found.new.states.keys found.new.labels.items)) }
    ensures over { IfOk result (λ grown. IfNone grown ((k : ℕ) (to : S) → bound_past last.new ≤ k → G.leads graph.now k at to → ⊥)) }
    ensures err { OnErr result (IsSame found.old.states.keys found.old.labels.items found.new.states.keys found.new.labels.items) }
{
    'numbers: while let Some(lead) = next_lead(graph, at, *last) {
        let label = Label {
            before: place,
            number: lead.number,
        };
        let added = found.add(lead.to, label)?;
        *last = Some(lead.number);
        if added {
            return Ok(Some(lead.to));
        }
    }
    Ok(None)
}
