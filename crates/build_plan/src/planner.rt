//! What a planner plans with.

use crate::placing::Placing;
use elbow_route::ElbowGraph;
use hand_route::HandSalvos;
use recipe_book::CheckedBook;

/// What a planner plans with: a book, what its turns do to the elbow, its salvos as the hand sees them, and where the target is built.
#[derive(Drop)]
pub(crate) struct Planner<'a> {
    pub(crate) book: &'a CheckedBook,
    pub(crate) graph: &'a ElbowGraph,
    pub(crate) salvos: &'a HandSalvos<'a>,
    pub(crate) placing: Placing,
}
