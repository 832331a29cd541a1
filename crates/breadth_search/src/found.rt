//! States that a search has found, with the way to each.

ghost use Rattle.std.specs.Prelude.{◌≡◌, ◌∷◌, [], ◌++◌, ℕ, List, ◌<◌, ◌≤◌, ◌^◌, length, IfOk, OnErr, IfSome, IfNone, MatchBool, get_or};
ghost use Rattle.std.specs.List.{slice_get, Contains, IsDistinct};
ghost use Rattle.breadth_search.specs.Labels.{AreLabelled, ArePrior, IsAdded, IsSame};

use crate::key::Key;
use indexmap::IndexSet;
use life_cells::NoMemory;
use std::alloc::Global;

/// How a state was found.
#[derive(Clone, Copy, Debug, PartialEq, Eq)]
pub struct Label {
    /// The place of the state before it, counted from 0 in the order in which they were found.
    pub before: usize,
    /// The number that leads on from there.
    pub number: usize,
}

/// The numbers that lead to the state at a place, by the labels of the states in the order in which they were found; the first has none.
pub fn list_by_labels(alloc: Global, labels: &[Label], place: usize) -> Result<Vec<usize>, NoMemory>
    requires prior { ArePrior labels.now }
    requires within { place ≤ length labels.now }
    ensures { IfOk result (λ list. (lists : List (List ℕ)) → AreLabelled labels.now lists → list.items ≡ get_or lists place []) }
{
    let mut list = Vec::new(alloc);
    let mut at = place;
    'back: while at > 0 {
        let label = labels[at - 1];
        list.push(label.number)?;
        at = label.before;
    }
    list.reverse();
    Ok(list)
}

/// States in the order in which they were found, and a label for each but the first.
#[derive(Drop)]
pub(crate) struct Found<S: Key> {
    states: IndexSet<S>,
    labels: Vec<Label>,
}

impl<S: Key> Found<S> {
    /// The one state at which a search begins.
    pub(crate) fn start(alloc: Global, from: S) -> Result<Self, NoMemory>
        ensures states { IfOk result (λ found. found.states.keys ≡ from ∷ []) }
        ensures labels { IfOk result (λ found. found.labels.items ≡ []) }
    {
        let mut states = IndexSet::new(alloc);
        states.insert(from)?;
        Ok(Found {
            states,
            labels: Vec::new(alloc),
        })
    }

    /// How many states were found.
    pub(crate) fn len(&self) -> usize
        ensures len { result ≡ length self.now.states.keys }
        ensures small { result < 2 ^ 63 }
        ensures distinct { IsDistinct S.eq self.now.states.keys }
    {
        self.states.len()
    }

    /// The state at a place, if so many were found.
    pub(crate) fn at(&self, place: usize) -> Option<S>
        ensures { result ≡ slice_get self.now.states.keys place }
    {
        self.states.get_index(place).copied()
    }

    /// The place of a state, if it was found.
    pub(crate) fn place_of(&self, state: S) -> Option<usize>
        ensures some { IfSome result (λ place. (place < length self.now.states.keys) × (slice_get self.now.states.keys place ≡ Some state)) }
        ensures none { IfNone result (Contains self.now.states.keys state → ⊥) }
    {
        self.states.get_index_of(&state)
    }

    /// Adds a state with its label, if it was not found before; whether it was added. Without memory nothing changes.
    pub(crate) fn add(&mut self, next: S, label: Label) -> Result<bool, NoMemory>
        ensures ok { IfOk result (λ added. MatchBool added (IsAdded next label self.old.states.keys self.old.labels.items self.new.states.keys self.new.labels.items)
            (IsSame self.old.states.keys self.old.labels.items self.new.states.keys self.new.labels.items × Contains self.old.states.keys next)) }
        ensures distinct { IsDistinct S.eq self.old.states.keys → IsDistinct S.eq self.new.states.keys }
        ensures err { OnErr result (IsSame self.old.states.keys self.old.labels.items self.new.states.keys self.new.labels.items) }
    {
        self.labels.reserve(1)?;
        let added = self.states.insert(next)?;
        if added {
            self.labels.push_reserved(label);
        }
        Ok(added)
    }

    /// The numbers that lead to the state at a place.
    pub(crate) fn list_to(&self, alloc: Global, place: usize) -> Result<Vec<usize>, NoMemory>
        requires prior { ArePrior self.now.labels.items }
        requires within { place ≤ length self.now.labels.items }
        ensures { IfOk result (λ list. (lists : List (List ℕ)) → AreLabelled self.now.labels.items lists → list.items ≡ get_or lists place []) }
    {
        list_by_labels(alloc, &self.labels, place)
    }
}
