//! Gliders: the stream travels south-east (down and right), a salvo north-east (up and right) on its lane.
//! x goes right and y goes down; a glider's index rises by one a generation.
#![tactic(auto)]

mod beyond;
pub mod finding;
pub mod glider;
pub mod laws;
mod tables;
pub mod track;

pub use finding::find_salvo_glider;
pub use glider::glider_cells;
pub use track::Track;
