//! The numbers of generations that are tried.

ghost use Rattle.std.specs.Prelude.{ℕ, ◌<◌, ◌≤◌, ◌↔◌, pos, ◌+ℤ◌, ◌≤ℤ◌, length};
ghost use Rattle.std.specs.List.{AllByRecursion};
ghost use Rattle.book_parts.specs.Proper.{IsDelay};
ghost use Rattle.book_parts.specs.declared.limits.TheConstants.{LONGEST_TURN};
ghost use Rattle.find_turn.specs.Found.{last_delay, IsTried};

use crate::found_turn::LONGEST_WAIT;
use book_parts::limits::{LEAST_GAP, LONGEST_TURN};

/// The least and the greatest of the numbers of generations that are tried; there is none where the least is more than the greatest.
#[derive(Clone, Copy)]
pub(crate) struct Tried {
    pub least: u32,
    pub most: u32,
}

/// The numbers of generations that are tried for these delays.
pub(crate) fn tried_numbers(delays: &[i64]) -> Tried
    requires some { 0 < length delays.now }
    requires delays { AllByRecursion IsDelay delays.now }
    ensures tried { (n : ℕ) → IsTried delays.now n ↔ ((result.least ≤ n) × (n ≤ result.most)) }
    ensures most { pos result.most ≤ℤ (last_delay delays.now +ℤ LONGEST_WAIT) }
    ensures longest { result.most ≤ LONGEST_TURN }
{
    let last = delays[delays.len() - 1];
    Tried {
        least: (last + LEAST_GAP) as u32,
        most: LONGEST_TURN.min((last + LONGEST_WAIT) as u32),
    }
}
