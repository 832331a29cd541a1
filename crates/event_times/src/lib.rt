//! Turns and hits in time: when each turn may start, and when it does at the earliest; the pattern, and its number of generations. Times are
//! generations; x goes right and y goes down.
#![tactic(auto)]

pub mod clock;
pub mod least;

pub use clock::{Clock, add_hit, add_turn, advance_of};
pub use least::{Emission, HitTime, Sent, TurnTime, least_start};

#[cfg(test)]
mod tests;
