//! How salvos lead the hand where it is wanted: the least lists of salvos that carry it to a place, or take it away, among what is built.
#![tactic(auto)]

pub mod clearing;
mod found;
pub mod laws;
pub mod room;
pub mod routes;
pub mod salvos;
pub mod ways;

pub use clearing::is_salvo_clear;
pub use laws::{farewells_are_one, farewells_go_free, hand_lists_are_one, hand_lists_go_free};
pub use room::is_room;
pub use routes::{route_farewell, route_hand};
pub use salvos::HandSalvos;
pub use ways::HandWays;
