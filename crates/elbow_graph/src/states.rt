//! How many elbows there are to come to.

ghost use Rattle.std.specs.Prelude.{◌^◌, pos, ◌≤ℤ◌, IfOk, IfSome, IfNone};
ghost use Rattle.recipe_turn.specs.Checked.{raws};
ghost use Rattle.elbow_graph.specs.States.{HasStates, HasMoreStates};

use crate::breadth::search;
use crate::elbow::Elbow;
use crate::goal::Goal;
use crate::graph::ElbowGraph;
use breadth_search::Outcome;
use life_cells::NoMemory;
use recipe_turn::CheckedTurn;
use std::alloc::Global;

/// How many elbows are come to from the start kind at shift 0 by moves and throws, with each shift from -span to span. None exactly
/// where they are more than the limit.
pub fn elbow_states(
    alloc: Global,
    turns: &[CheckedTurn],
    start: usize,
    span: i64,
    limit: u64,
) -> Result<Option<u64>, NoMemory>
    requires low { pos 0 ≤ℤ span }
    requires high { span ≤ℤ pos (2 ^ 27) }
    ensures some { IfOk result (λ found. IfSome found (λ n. HasStates (raws turns.now) start span limit n)) }
    ensures none { IfOk result (λ found. IfNone found (HasMoreStates (raws turns.now) start span limit)) }
{
    let graph = ElbowGraph::of(alloc, turns)?;
    let from = Elbow {
        kind: start,
        shift: 0,
    };
    match search(alloc, &graph, Goal::Anywhere, from, span, limit)? {
        Outcome::Nowhere(count) => Ok(Some(count)),
        Outcome::More => Ok(None),
        Outcome::Route(_) => Ok(None),
    }
}
