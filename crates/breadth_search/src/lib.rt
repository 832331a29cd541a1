//! Searches by breadth over states of any kind: numbers lead from state to state, and the least lists of numbers are found. Least is the
//! shortest, and of these the first number by number.
#![tactic(auto)]

pub mod breadth;
pub mod found;
pub mod graph;
pub mod key;
pub mod labelling;
pub mod laws;
pub mod outcome;

pub use breadth::search;
pub use found::{Label, list_by_labels};
pub use graph::{Ending, Graph, Lead};
pub use key::Key;
pub use labelling::Labelling;
pub use outcome::Outcome;
