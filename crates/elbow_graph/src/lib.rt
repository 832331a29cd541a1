//! The graph of the elbow: where turns lead it, and the search by breadth over its kinds and shifts.
#![tactic(auto)]

pub mod breadth;
pub mod elbow;
pub mod exit;
pub mod goal;
pub mod graph;
pub mod laws;
mod places;
pub mod states;
mod table;
mod way;

pub use breadth::search;
pub use breadth_search::Outcome;
pub use elbow::{Elbow, elbow_after};
pub use exit::Exit;
pub use goal::Goal;
pub use graph::ElbowGraph;
pub use laws::{states_have_one_number, states_within_are_not_more};
pub use states::elbow_states;
