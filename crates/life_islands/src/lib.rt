//! Islands of a set of cells: the parts whose cells are joined by links of distance at most 2, in the order in which a construction
//! builds them, and their shapes, which say what an island looks like whatever its place.
#![tactic(auto)]

mod equality;
pub mod island;
pub mod laws;
pub mod parting;
mod rank;
mod search;
pub mod shape;
pub mod shaping;

pub use island::Island;
pub use parting::{is_one_island, islands};
pub use shape::Shape;
pub use shaping::shape_of;
