//! The search for the least list that ends.

ghost use Rattle.std.specs.Prelude.{◌≡◌, ◌∷◌, [], IfOk};
ghost use Rattle.breadth_search.specs.Answers.{AnswersSo};
ghost use Rattle.breadth_search.specs.First.{IsGrown};

use crate::graph::{Ending, Graph};
use crate::key::Key;
use crate::labelling::Labelling;
use crate::outcome::Outcome;
use life_cells::NoMemory;
use std::alloc::Global;

/// Searches by breadth from a state for the least list that ends, until more states than the limit are reached. It takes no memory for
/// states where a list of one number ends.
pub fn search<S: Key, G: Graph<S> + Ending<S>>(
    alloc: Global,
    graph: G,
    from: S,
    limit: u64,
) -> Result<Outcome, NoMemory>
    ensures { IfOk result (λ outcome. AnswersSo S.eq (G.leads graph) (G.ends graph) from limit outcome) }
{
    if let Some(last) = graph.ending(from) {
        return Ok(Outcome::Route(list_of(alloc, last)?));
    }
    let mut labelling = Labelling::start(alloc, graph, from)?;
    labelling.search(alloc, limit)
}

/// The list of one number.
fn list_of(alloc: Global, number: usize) -> Result<Vec<usize>, NoMemory>
    ensures { IfOk result (λ list. list.items ≡ number ∷ []) }
{
    let mut list = Vec::new(alloc);
    list.push(number)?;
    Ok(list)
}

impl<S: Key, G: Graph<S> + Ending<S>> Labelling<S, G> {
    /// Searches for the least list that ends, until more states than the limit are reached. States that are labelled already are not
    /// searched for again.
    pub fn search(&mut self, alloc: Global, limit: u64) -> Result<Outcome, NoMemory>
        ensures graph { self.new.graph ≡ self.old.graph }
        ensures from { self.new.from ≡ self.old.from }
        ensures grown { IsGrown self.old.states self.new.states }
        ensures answers { IfOk result (λ outcome. AnswersSo S.eq (G.leads self.old.graph) (G.ends self.old.graph) self.old.from limit outcome) }
    {
        let mut place = 0;
        'states: while place as u64 <= limit {
            let Some(here) = self.come_to(place)? else {
                return Ok(Outcome::Nowhere(place as u64));
            };
            if let Some(last) = self.graph().ending(here) {
                let mut list = self.list_to(alloc, place)?;
                list.push(last)?;
                return Ok(Outcome::Route(list));
            }
            place += 1;
        }
        Ok(Outcome::More)
    }
}
