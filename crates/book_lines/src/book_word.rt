//! The words that every book has, and what stands behind each.

ghost use Rattle.std.specs.Prelude.{◌≡◌};
ghost use Rattle.book_lines.specs.Words.{word_text};
ghost use Rattle.book_lines.specs.Limits.{limits};

use crate::limit::Limit;

/// A word that every book has.
#[derive(Clone, Copy, Debug, PartialEq, Eq)]
pub enum BookWord {
    /// How far before a turn's frame its first glider stands.
    Approach,
    /// The greatest u of a kind.
    Wall,
    /// The greatest u of a turn's reaction.
    Reach,
    /// Where the target's lower left corner is built.
    Corner,
    /// The margin of hand places about the target.
    Room,
    /// The greatest absolute shift of the elbow.
    Span,
    /// The finder's lanes.
    Lanes,
    /// The finder's gaps between delays.
    Delays,
    /// The hand.
    Hand,
    /// The kinds of elbow: one line each, and at least one.
    Elbow,
    /// The kind that the stream begins at.
    Start,
}

/// Each of these words, in the order in which one that is missing is named.
pub const BOOK_WORDS: [BookWord; 11] = [
    BookWord::Approach,
    BookWord::Wall,
    BookWord::Reach,
    BookWord::Corner,
    BookWord::Room,
    BookWord::Span,
    BookWord::Lanes,
    BookWord::Delays,
    BookWord::Hand,
    BookWord::Elbow,
    BookWord::Start,
];

impl BookWord {
    /// How it is written.
    pub fn text(self) -> &'static str
        ensures { result.now ≡ word_text self }
    {
        match self {
            BookWord::Approach => "approach",
            BookWord::Wall => "wall",
            BookWord::Reach => "reach",
            BookWord::Corner => "corner",
            BookWord::Room => "room",
            BookWord::Span => "span",
            BookWord::Lanes => "lanes",
            BookWord::Delays => "delays",
            BookWord::Hand => "hand",
            BookWord::Elbow => "elbow",
            BookWord::Start => "start",
        }
    }

    /// The limits of the numbers of a setting, in the order of its line; none where the word is no setting.
    pub fn limits(self) -> &'static [Limit]
        ensures { result.now ≡ limits self }
    {
        match self {
            BookWord::Approach => &[Limit::Approach],
            BookWord::Wall => &[Limit::Wall],
            BookWord::Reach => &[Limit::Reach],
            BookWord::Corner => &[Limit::Coordinate, Limit::Coordinate],
            BookWord::Room => &[Limit::Room],
            BookWord::Span => &[Limit::Span],
            BookWord::Lanes => &[Limit::Coordinate, Limit::Coordinate, Limit::LanesLength],
            BookWord::Delays => &[Limit::LeastGap, Limit::GreatestGap, Limit::GapsLength],
            BookWord::Hand | BookWord::Elbow | BookWord::Start => &[],
        }
    }
}
