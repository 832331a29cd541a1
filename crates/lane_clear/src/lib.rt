//! Whether a hit, moved to the hand's place, is clear of what is built: its bounds, and the way of its glider. x goes right and y goes down;
//! u = x - y and v = x + y. Only to build up a `BuiltSet` takes memory.
#![tactic(auto)]

mod barriers;
pub mod built_set;
pub mod clearance;
mod first_cells;
pub mod laws;
pub mod moved;
pub mod refusal;
pub mod rows;

pub use built_set::BuiltSet;
pub use clearance::{are_beyond, clear_hit};
pub use moved::moved_frame;
pub use refusal::ClearRefusal;
pub use rows::has_cell;
