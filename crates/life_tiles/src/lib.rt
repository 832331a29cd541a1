//! The engine that evolves a pattern a generation at a time and counts each generation.
#![tactic(auto)]

mod advancing;
mod bounding;
mod changing;
mod counting;
mod filling;
mod growing;
mod linking;
pub mod place;
mod pruning;
mod reading;
mod span;
mod stepping;
pub mod still;
#[cfg(test)]
mod tests;
mod tile_map;
mod tile_step;
pub mod tiles;
mod waking;

pub use still::first_change;
pub use tiles::Tiles;
