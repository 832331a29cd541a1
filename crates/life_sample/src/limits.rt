//! What numbers a sample may be made from.

/// The most kinds.
pub const MOST_COUNT: u32 = 64;

/// The least gap of two blocks, in cells right and down.
pub const LEAST_GAP: u32 = 64;

/// The greatest gap of two blocks, in cells right and down.
pub const GREATEST_GAP: u32 = 1_000_000;
