//! What gliders of a list of lanes build at a hand: their hits, one after the other, and the product and the hand that the last one leaves.
//! Nothing is stated beforehand, so this is how new salvos are found. x goes right and y goes down.
#![tactic(auto)]

pub mod ending;
pub mod laws;
mod memo;
pub mod outcome;
pub mod salvo_hits;
mod standing;
mod strike;

pub use ending::outcome_of;
pub use outcome::Outcome;
pub use salvo_hits::SalvoHits;
