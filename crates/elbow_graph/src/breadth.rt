//! The search by breadth.

ghost use Rattle.std.specs.Prelude.{pos, ◌≤ℤ◌, IfOk};
ghost use Rattle.elbow_graph.specs.Answers.{AnswersSo};

use crate::elbow::Elbow;
use crate::goal::Goal;
use crate::graph::ElbowGraph;
use crate::way::Way;
use breadth_search::Outcome;
use life_cells::NoMemory;
use std::alloc::Global;

/// Searches by breadth from an elbow, each shift from -span to span: for the least list of turns that serves the goal, until more elbows
/// than the limit are reached. Least is the shortest, and of these the first number by number.
pub fn search(
    alloc: Global,
    graph: &ElbowGraph,
    goal: Goal,
    from: Elbow,
    span: i64,
    limit: u64,
) -> Result<Outcome, NoMemory>
    requires { pos 0 ≤ℤ span }
    ensures { IfOk result (λ outcome. AnswersSo graph.now span goal from limit outcome) }
{
    breadth_search::search(alloc, Way { graph, goal, span }, from, limit)
}
