//! Kinds of elbow and turns at them, tested by evolving them.
#![tactic(auto)]

mod bounds;
mod breaches;
pub mod checked_kinds;
pub mod checked_turn;
mod diagonals;
mod evolution;
pub mod gaps;
pub mod keeping;
pub mod kinds;
pub mod laws;
pub mod named_kinds;
mod own_gliders;
pub mod refusal;
mod soundness;
pub mod turn_ends;

pub use checked_kinds::{Kinds, check_kinds};
pub use checked_turn::{CheckedTurn, check_turn};
pub use gaps::first_narrow;
pub use keeping::keeps_bounds;
pub use kinds::first_out_of_place;
pub use named_kinds::kind_cells;
pub use own_gliders::starting_gliders;
pub use refusal::{KindsError, TurnRefusal};
pub use turn_ends::least_u;
