//! The turn that a list of delays gives at a kind of elbow, found by evolving it once: the least number of generations at which some end makes
//! it sound, and that end.
#![tactic(auto)]

mod boxes;
mod ending;
pub mod finding;
pub mod found_turn;
mod front;
pub mod laws;
mod search;
mod settled;
mod standing;
mod tried;

pub use finding::find_turn;
pub use found_turn::FoundTurn;
