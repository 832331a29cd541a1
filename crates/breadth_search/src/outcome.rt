//! What a search for a list that ends comes to.

/// What a search for a list that ends comes to.
#[derive(Drop)]
pub enum Outcome {
    /// The least list that ends.
    Route(Vec<usize>),
    /// No list ends, and so many states are reached.
    Nowhere(u64),
    /// More states than the limit are reached.
    More,
}
