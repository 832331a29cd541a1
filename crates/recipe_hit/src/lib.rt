//! Hits at the hand, and slow salvos, tested by evolving them. A salvo's gliders travel north-east (up and right), one after the other, each
//! on its lane; x goes right and y goes down.
#![tactic(auto)]

mod boxes;
pub mod checked_salvo;
pub mod ending;
mod endless;
pub mod frame;
pub mod hand;
pub mod in_turn;
pub mod laws;
mod leading;
pub mod limits;
pub mod refusal;
mod rest;
mod soundness;
pub mod striking;
mod turned;

pub use checked_salvo::{CheckedSalvo, check_salvo};
pub use frame::{Hit, HitFrame};
pub use hand::{Hand, check_hand};
pub use refusal::{HandRefusal, HitRefusal, SalvoRefusal};
pub use striking::hit;
