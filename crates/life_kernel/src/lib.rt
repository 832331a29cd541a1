//! Conway's rule on rows of 64 cells at a time: bit k of a word is the cell in column k, and bit 0 is the westmost.
#![tactic(auto)]

/// The sum of two bits in each place of two words: its ones and its twos.
macro_rules! half_add {
    ($x:expr, $y:expr) => {{
        let x = $x;
        let y = $y;
        (x ^ y, x & y)
    }};
}

/// The same of three bits.
macro_rules! full_add {
    ($x:expr, $y:expr, $z:expr) => {{
        let x = $x;
        let y = $y;
        let z = $z;
        let either = x ^ y;
        (either ^ z, x & y | either & z)
    }};
}

mod lanes;
pub mod laws;
pub mod row;

pub use lanes::next_rows;
pub use row::{Row, next_word};
