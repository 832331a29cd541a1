//! The items of a text: a count and a tag each.

ghost use Rattle.std.specs.Prelude.{Some};

use std::fmt;

/// What an item says of the cells it counts.
#[derive(Clone, Copy, Debug, PartialEq, Eq)]
pub enum Tag {
    /// Dead cells, `b` or `.`.
    Dead,
    /// Live cells, `o` or `A`.
    Alive,
    /// Ends of rows, `$`.
    RowEnd,
}

/// A run of one tag.
#[derive(Clone, Copy, Debug, PartialEq, Eq)]
pub struct Item {
    /// How many cells, or rows.
    pub count: u64,
    /// Of what.
    pub tag: Tag,
}

/// The letter of the tag, as it is written.
impl fmt::Display for Tag {
    ghost use Rattle.rle_items.specs.Words.{tag_byte};
    ghost use Rattle.std.specs.Prelude.{[], ◌∷◌};

    ghost output = { λ tag. Some (tag_byte tag ∷ []) };

    fn fmt<W: fmt::Write>(&self, f: &mut fmt::Formatter<W>) -> fmt::Result {
        match self {
            Tag::Dead => write!(f, "b"),
            Tag::Alive => write!(f, "o"),
            Tag::RowEnd => write!(f, "$"),
        }
    }
}

/// The count, unless it is 1, and the tag.
impl fmt::Display for Item {
    ghost use Rattle.rle_items.specs.Words.{item_text};

    ghost output = { λ item. Some (item_text item) };

    fn fmt<W: fmt::Write>(&self, f: &mut fmt::Formatter<W>) -> fmt::Result {
        let tag = self.tag;
        if self.count == 1 {
            return write!(f, "{tag}");
        }
        let count = self.count;
        write!(f, "{count}{tag}")
    }
}
