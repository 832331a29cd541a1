//! Tests by numbers alone whether patterns are apart: by their boxes, by a strip along a diagonal, or by
//! a diagonal between them. A yes means distance 3 or more, so that both evolve on their own for a generation.
//! x goes right and y goes down; u = x - y and v = x + y. No test takes memory.
#![tactic(auto)]

pub mod boxes;
pub mod diagonals;

pub use boxes::box_apart;
pub use diagonals::{split_apart, strip_apart};
