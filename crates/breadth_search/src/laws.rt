//! Laws of the least lists, and of the states that are reached.

ghost use Rattle.std.specs.Prelude.{◌≡◌, ◌≤◌, ℕ, List, length};
ghost use Rattle.breadth_search.specs.States.{HasReached, HasReachedMore};
ghost use Rattle.breadth_search.specs.Walks.{IsLeastTo, IsLeastEnding};

use crate::graph::{Ending, Graph};
use crate::key::Key;

/// There is at most one least list that leads to a state.
pub fn least_lists_are_one<S: Key, G: Graph<S>>()
    ensures { (graph : G) (from to : S) (a b : List ℕ) → IsLeastTo (G.leads graph) from to a → IsLeastTo (G.leads graph) from to b → a ≡ b }
{}

/// There is at most one least list that ends.
pub fn least_endings_are_one<S: Key, G: Graph<S> + Ending<S>>()
    ensures { (graph : G) (from : S) (a b : List ℕ) → IsLeastEnding (G.leads graph) (G.ends graph) from a → IsLeastEnding (G.leads graph) (G.ends graph) from b → a ≡ b }
{}

/// The least list that ends has no more numbers than states are reached.
pub fn least_endings_are_short<S: Key, G: Graph<S> + Ending<S>>()
    ensures { (graph : G) (from : S) (limit count : ℕ) (list : List ℕ) → HasReached S.eq (G.leads graph) from limit count →
        IsLeastEnding (G.leads graph) (G.ends graph) from list → length list ≤ count }
{}

/// The states that are reached have one number.
pub fn states_have_one_number<S: Key, G: Graph<S>>()
    ensures { (graph : G) (from : S) (limit other a b : ℕ) → HasReached S.eq (G.leads graph) from limit a → HasReached S.eq (G.leads graph) from other b → a ≡ b }
{}

/// Where their number is within a limit, they are not more than it.
pub fn states_within_are_not_more<S: Key, G: Graph<S>>()
    ensures { (graph : G) (from : S) (limit n : ℕ) → HasReached S.eq (G.leads graph) from limit n → HasReachedMore S.eq (G.leads graph) from limit → ⊥ }
{}
