//! The least lists of turns that close an elbow, or that throw on a lane.

ghost use Rattle.std.specs.Prelude.{◌≡◌, ◌^◌, List, ℕ, pos, ◌≤ℤ◌, IfOk, IfSome, IfNone};
ghost use Rattle.recipe_turn.specs.Checked.{raws};
ghost use Rattle.elbow_graph.specs.declared.goal.Goal.TheVariants.{Closed as ToClose, Lane as OnLane};
ghost use Rattle.elbow_graph.specs.Elbows.{IsInSpan};
ghost use Rattle.elbow_graph.specs.Goals.{IsRoute, IsLeastRoute};
ghost use Rattle.elbow_route.specs.Lists.{ClosesBy, IsLeastClosing, ServesBy, IsLeastServing};

use elbow_graph::{Elbow, ElbowGraph, Goal, Outcome, search};
use life_cells::NoMemory;
use recipe_turn::CheckedTurn;
use std::alloc::Global;

/// The least list of turns, by their numbers from 1 on, whose last turn throws on the lane and whose others are moves, each shift from
/// -span to span. The lane is counted at the shift before the last turn. Least is the shortest, and of these the first number by number.
/// None exactly where no list serves the lane. A graph is made for the turns; `least_to_lane` takes one that is made already.
pub fn route_to_lane(
    alloc: Global,
    turns: &[CheckedTurn],
    from: Elbow,
    lane: i64,
    span: i64,
) -> Result<Option<Vec<usize>>, NoMemory>
    requires low { pos 0 ≤ℤ span }
    requires high { span ≤ℤ pos (2 ^ 27) }
    requires from { IsInSpan span from }
    ensures some { IfOk result (λ found. IfSome found (λ list. IsLeastServing (raws turns.now) span lane from list.items)) }
    ensures none { IfOk result (λ found. IfNone found ((list : List ℕ) → ServesBy (raws turns.now) span lane from list → ⊥)) }
{
    let graph = ElbowGraph::of(alloc, turns)?;
    least_to_lane(alloc, &graph, from, lane, span)
}

/// The least list of turns, by their numbers from 1 on, that closes this elbow: moves, and a closing turn last, each shift from -span
/// to span. Least is the shortest, and of these the first number by number. None exactly where no list closes it. A graph is made for the
/// turns; `least_to_close` takes one that is made already.
pub fn route_to_close(
    alloc: Global,
    turns: &[CheckedTurn],
    from: Elbow,
    span: i64,
) -> Result<Option<Vec<usize>>, NoMemory>
    requires low { pos 0 ≤ℤ span }
    requires high { span ≤ℤ pos (2 ^ 27) }
    requires from { IsInSpan span from }
    ensures some { IfOk result (λ found. IfSome found (λ list. IsLeastClosing (raws turns.now) span from list.items)) }
    ensures none { IfOk result (λ found. IfNone found ((list : List ℕ) → ClosesBy (raws turns.now) span from list → ⊥)) }
{
    let graph = ElbowGraph::of(alloc, turns)?;
    least_to_close(alloc, &graph, from, span)
}

/// The least list of a graph's turns that throws on the lane, as `route_to_lane` finds it. A graph serves any number of calls. For a lane
/// on which one turn throws at once no memory is taken but for the list.
pub fn least_to_lane(
    alloc: Global,
    graph: &ElbowGraph,
    from: Elbow,
    lane: i64,
    span: i64,
) -> Result<Option<Vec<usize>>, NoMemory>
    requires { pos 0 ≤ℤ span }
    ensures some { IfOk result (λ found. IfSome found (λ list. IsLeastRoute graph.now span (OnLane lane) from list.items)) }
    ensures none { IfOk result (λ found. IfNone found ((list : List ℕ) → IsRoute graph.now span (OnLane lane) from list → ⊥)) }
{
    least_list(alloc, graph, Goal::Lane(lane), from, span)
}

/// The least list of a graph's turns that closes the elbow, as `route_to_close` finds it. A graph serves any number of calls.
pub fn least_to_close(
    alloc: Global,
    graph: &ElbowGraph,
    from: Elbow,
    span: i64,
) -> Result<Option<Vec<usize>>, NoMemory>
    requires { pos 0 ≤ℤ span }
    ensures some { IfOk result (λ found. IfSome found (λ list. IsLeastRoute graph.now span ToClose from list.items)) }
    ensures none { IfOk result (λ found. IfNone found ((list : List ℕ) → IsRoute graph.now span ToClose from list → ⊥)) }
{
    least_list(alloc, graph, Goal::Closed, from, span)
}

/// The least list of turns that serves a goal, by their numbers from 1 on, each shift from -span to span; None exactly where none does.
fn least_list(
    alloc: Global,
    graph: &ElbowGraph,
    goal: Goal,
    from: Elbow,
    span: i64,
) -> Result<Option<Vec<usize>>, NoMemory>
    requires { pos 0 ≤ℤ span }
    ensures some { IfOk result (λ found. IfSome found (λ list. IsLeastRoute graph.now span goal from list.items)) }
    ensures none { IfOk result (λ found. IfNone found ((list : List ℕ) → IsRoute graph.now span goal from list → ⊥)) }
{
    match search(alloc, graph, goal, from, span, u64::MAX)? {
        Outcome::Route(list) => Ok(Some(list)),
        Outcome::Nowhere(_) => Ok(None),
        // A search is over before it has found so many elbows.
        Outcome::More => Ok(None),
    }
}
