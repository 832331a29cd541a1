//! The turns for gliders that are thrown one after the other.

ghost use Rattle.std.specs.Prelude.{◌≡◌, ℕ, List, IfOk, IfSome, IfNone};
ghost use Rattle.elbow_graph.specs.Exits.{exits_of};
ghost use Rattle.elbow_route.specs.Lists.{ServesBy, IsLeastServing, ClosesBy, IsLeastClosing};
ghost use Rattle.recipe_turn.specs.Checked.{raws};
ghost use Rattle.build_plan.specs.Served.{hit_event};
ghost use Rattle.build_plan.specs.ServedWalk.{IsServed};

use crate::event::Event;
use crate::throw::Throw;
use crate::walk::Walk;
use elbow_route::{Elbow, ElbowGraph, least_lists_are_one, least_to_close, least_to_lane};
use life_cells::NoMemory;
use recipe_book::CheckedBook;
use std::alloc::Global;

/// The hit of a glider.
fn hit_event(throw: Throw) -> Event
    ensures { result ≡ hit_event throw }
{
    Event::Hit {
        salvo: throw.salvo,
        place: throw.place,
        at: throw.at,
    }
}

/// The least list of the book's turns that throws on a lane, by their numbers; none where no list does. The graph is that of the book's
/// turns.
fn list_to_lane(
    alloc: Global,
    book: &CheckedBook,
    graph: &ElbowGraph,
    from: Elbow,
    lane: i64,
) -> Result<Option<Vec<usize>>, NoMemory>
    requires { graph.now ≡ exits_of (raws book.now.turns) }
    ensures some { IfOk result (λ found. IfSome found (λ list. IsLeastServing (raws book.now.turns) book.now.settings.span lane from list.items)) }
    ensures none { IfOk result (λ found. IfNone found ((list : List ℕ) → ServesBy (raws book.now.turns) book.now.settings.span lane from list → ⊥)) }
{
    least_to_lane(alloc, graph, from, lane, book.settings().span)
}

/// The least list of the book's turns for a glider's lane.
fn list_to_throw(
    alloc: Global,
    book: &CheckedBook,
    graph: &ElbowGraph,
    from: Elbow,
    throw: Throw,
) -> Result<Option<Vec<usize>>, NoMemory>
    requires { graph.now ≡ exits_of (raws book.now.turns) }
    ensures some { IfOk result (λ found. IfSome found (λ list. IsLeastServing (raws book.now.turns) book.now.settings.span throw.lane from list.items)) }
    ensures none { IfOk result (λ found. IfNone found ((list : List ℕ) → ServesBy (raws book.now.turns) book.now.settings.span throw.lane from list → ⊥)) }
{
    list_to_lane(alloc, book, graph, from, throw.lane)
}

/// The least list of the book's turns that closes an elbow, by their numbers; none where no list does. The graph is that of the book's
/// turns.
pub(crate) fn list_to_close(
    alloc: Global,
    book: &CheckedBook,
    graph: &ElbowGraph,
    from: Elbow,
) -> Result<Option<Vec<usize>>, NoMemory>
    requires { graph.now ≡ exits_of (raws book.now.turns) }
    ensures some { IfOk result (λ found. IfSome found (λ list. IsLeastClosing (raws book.now.turns) book.now.settings.span from list.items)) }
    ensures none { IfOk result (λ found. IfNone found ((list : List ℕ) → ClosesBy (raws book.now.turns) book.now.settings.span from list → ⊥)) }
{
    least_to_close(alloc, graph, from, book.settings().span)
}

/// Adds for each glider in turn the least list of turns for its lane, and then its hit; false where a lane has no list. The graph is
/// that of the book's turns.
pub(crate) fn serve(
    alloc: Global,
    book: &CheckedBook,
    graph: &ElbowGraph,
    walk: &mut Walk,
    throws: &[Throw],
) -> Result<bool, NoMemory>
    requires { graph.now ≡ exits_of (raws book.now.turns) }
    ensures { IfOk result (λ all. IsServed book.now walk.old walk.new throws.now all) }
{
    // This says that least lists are one; it does nothing.
    least_lists_are_one();
    for throw in throws {
        let Some(list) = list_to_throw(alloc, book, graph, walk.elbow, *throw)? else {
            return Ok(false);
        };
        walk.push_turns(book, &list)?;
        walk.events.push(hit_event(*throw))?;
    }
    Ok(true)
}
