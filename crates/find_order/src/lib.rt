//! The candidates of the recipe finder in their order: lists of lanes, from which salvos may come, and then, for each kind, lists of delays, from
//! which turns may come.
#![tactic(auto)]

mod advance;
pub mod candidate;
pub mod candidates;
mod delays;
mod equality;
mod lists;

pub use candidate::Candidate;
pub use candidates::Candidates;
