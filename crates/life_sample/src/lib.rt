//! The sample: a recipe book of any size, made from two numbers, and the summary of what it builds for the empty target.
//! Numbers of kinds and turns count from 1. x goes right and y goes down.
#![tactic(auto)]

mod blocks;
pub mod book;
mod kinds;
pub mod laws;
pub mod limits;
mod names;
pub mod summary;
mod turns;

pub use book::sample_book;
pub use summary::sample_summary;
