//! The limits of a hit.

/// The most generations in which what was struck comes to rest.
pub const LONGEST_HIT: u32 = 4_096;

/// The most generations that are counted for a hit: one more than it may take, for the step that shows it at rest.
pub const MOST_COUNTED: u64 = 4_097;

/// How far the bounds of a hit may go beyond those of what was struck, on each side.
pub const BEYOND: i64 = 8_192;
