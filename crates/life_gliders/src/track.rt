//! Where gliders travel.

/// A track of gliders.
#[derive(Clone, Copy, Debug, PartialEq, Eq)]
pub enum Track {
    /// The stream's one lane, going south-east.
    Stream,
    /// A lane of a salvo, going north-east; v = x + y of its cells lies from lane - 2 to lane + 1.
    Salvo { lane: i64 },
}
