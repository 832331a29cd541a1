//! What the numbers and counts of a book are held against.

ghost use Rattle.std.specs.Prelude.{◌≡◌, ◌↔◌, IsTrue};
ghost use Rattle.book_parts.specs.Limits.{IsFrom, IsApproach};

use book_parts::limits::{
    GREATEST_APPROACH, GREATEST_COORDINATE, GREATEST_INDEX, GREATEST_REACH, GREATEST_ROOM,
    GREATEST_SPAN, GREATEST_WALL, LEAST_APPROACH, LEAST_GAP, LONGEST_DELAY, LONGEST_TURN,
    MOST_GAPS, MOST_LANES,
};

/// What a number is held against.
#[derive(Clone, Copy, Debug, PartialEq, Eq)]
pub enum Limit {
    /// A multiple of 4 from 20 to 4,096.
    Approach,
    /// From 1 to 4,096.
    Wall,
    /// From 1 to 65,536.
    Reach,
    /// A coordinate, a shift or a lane: from -2^30 to 2^30.
    Coordinate,
    /// From 0 to 512.
    Room,
    /// From 0 to 2^27.
    Span,
    /// The length of lists of lanes: from 1 to 64.
    LanesLength,
    /// The least gap between delays: 20 at least.
    LeastGap,
    /// The greatest gap between delays: 65,536 at most.
    GreatestGap,
    /// The length of lists of gaps: from 0 to 63.
    GapsLength,
    /// The generations of a turn: from 0 to 65,536.
    Time,
    /// A delay: from 0 to 65,536.
    Delay,
    /// The index of a thrown glider: from -2^33 to 2^33.
    Index,
    /// A count of at most so many.
    Count(u64),
}

impl Limit {
    ghost use Rattle.book_lines.specs.Limits.{IsWithin};

    /// Whether a number is within it.
    pub fn holds(self, number: i64) -> bool
        ensures { IsTrue result ↔ IsWithin self number }
    {
        match self {
            Limit::Approach => is_approach(number),
            Limit::Wall => is_from(1, GREATEST_WALL, number),
            Limit::Reach => is_from(1, GREATEST_REACH, number),
            Limit::Coordinate => { is_from(-GREATEST_COORDINATE, GREATEST_COORDINATE, number) },
            Limit::Room => is_from(0, GREATEST_ROOM, number),
            Limit::Span => is_from(0, GREATEST_SPAN, number),
            Limit::LanesLength => is_from(1, MOST_LANES as i64, number),
            Limit::LeastGap => LEAST_GAP <= number,
            Limit::GreatestGap => number <= LONGEST_DELAY,
            Limit::GapsLength => is_from(0, MOST_GAPS as i64, number),
            Limit::Time => is_from(0, LONGEST_TURN as i64, number),
            Limit::Delay => is_from(0, LONGEST_DELAY, number),
            Limit::Index => is_from(-GREATEST_INDEX, GREATEST_INDEX, number),
            Limit::Count(most) => number < 0 || number as u64 <= most,
        }
    }
}

/// Whether a number is a multiple of 4 from 20 to 4,096.
fn is_approach(number: i64) -> bool
    ensures { IsTrue result ↔ IsApproach number }
{
    is_from(LEAST_APPROACH, GREATEST_APPROACH, number) && number % 4 == 0
}

/// Whether a number lies from the least to the greatest.
fn is_from(least: i64, greatest: i64, number: i64) -> bool
    ensures { IsTrue result ↔ IsFrom least greatest number }
{
    least <= number && number <= greatest
}
