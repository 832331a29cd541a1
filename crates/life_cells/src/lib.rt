//! Finite sets of cells of the infinite plane, and Conway's rule on them, one plain step at a time.
//! The x axis goes right and the y axis goes down; cells are ordered by y, then by x.
#![tactic(auto)]

mod apart;
mod bounding;
pub mod bounds;
pub mod cell;
pub mod cell_set;
mod close;
mod difference;
mod equality;
pub mod memory;
mod merge;
mod moved;
mod near;
pub mod step;
mod survivors;

pub use bounds::Bounds;
pub use cell::Cell;
pub use cell_set::CellSet;
pub use memory::NoMemory;
pub use step::{run_plain, step_plain};
