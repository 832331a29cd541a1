//! What is said of each entry of a book.

use recipe_hit::SalvoRefusal;
use recipe_turn::TurnRefusal;

/// The verdict on an entry of a book. No refusal in it is for want of memory.
#[derive(Clone, Copy, Debug, PartialEq, Eq)]
pub enum Verdict {
    /// The entry is sound.
    Accepted,
    /// A turn isn't sound: the first part that fails.
    Turn(TurnRefusal),
    /// A salvo isn't sound: the first part that fails.
    Salvo(SalvoRefusal),
}
