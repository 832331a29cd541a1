//! What a search by breadth asks of a graph: which numbers lead on from a state, and with which a list may end there.

ghost use Rattle.std.specs.Prelude.{ℕ, suc};
ghost use Rattle.breadth_search.specs.Leads.{IsFirstLead, IsFirstEnd, LeadsOn};

/// A number and the state to which it leads.
#[derive(Clone, Copy, Debug)]
pub struct Lead<S> {
    /// The number.
    pub number: usize,
    /// The state to which it leads.
    pub to: S,
}

/// Numbers that lead from state to state, each number from each state to one state at most.
pub trait Graph<S>: Drop {
    // In this graph a number leads from a state to another.
    ghost leads: { Self → ℕ → S → S → Type 0 };

    /// The least number that leads on from a state, and where it leads.
    fn first(&self, at: S) -> Option<Lead<S>>
        ensures { IsFirstLead (leads self.now) at 0 result };

    /// The least number past one that leads on from a state, and where it leads.
    fn after(&self, at: S, number: usize) -> Option<Lead<S>>
        requires { LeadsOn (leads self.now) at number }
        ensures { IsFirstLead (leads self.now) at (suc number) result };
}

/// Numbers with which a list may end.
pub trait Ending<S> {
    // A list may end with a number at a state.
    ghost ends: { Self → ℕ → S → Type 0 };

    /// The least number with which a list may end at a state.
    fn ending(&self, at: S) -> Option<usize>
        ensures { IsFirstEnd (ends self.now) at result };
}
