//! Laws of the least lists of turns.

ghost use Rattle.std.specs.Prelude.{◌≡◌, ◌≤◌, ℕ, ℤ, List, length};
ghost use Rattle.book_parts.specs.declared.turn.RawTurn.{RawTurn};
ghost use Rattle.elbow_graph.specs.declared.elbow.Elbow.{Elbow as Place};
ghost use Rattle.elbow_graph.specs.declared.goal.Goal.{Goal as Wanted};
ghost use Rattle.elbow_graph.specs.declared.goal.Goal.TheVariants.{Anywhere};
ghost use Rattle.elbow_graph.specs.Exits.{exits_of};
ghost use Rattle.elbow_graph.specs.Goals.{Passes, IsLeastRoute};
ghost use Rattle.elbow_graph.specs.States.{IsComeTo, HasReached};
ghost use Rattle.elbow_route.specs.Lists.{ServesBy, LeavesInSpan};

/// There is at most one least list that serves a goal: that closes the elbow, or throws on a lane.
pub fn least_lists_are_one()
    ensures { (turns : List RawTurn) (span : ℤ) (goal : Wanted) (from : Place) (a b : List ℕ) → IsLeastRoute (exits_of turns) span goal from a →
        IsLeastRoute (exits_of turns) span goal from b → a ≡ b }
{}

/// The least list from an elbow has no more turns than the elbows that are come to from any elbow that leads there: from itself, or from the
/// elbow's start.
pub fn least_lists_are_short()
    ensures { (turns : List RawTurn) (span : ℤ) (goal : Wanted) (first from : Place) (limit count : ℕ) (list : List ℕ) → HasReached (Passes (exits_of turns) span Anywhere) first limit count →
        IsComeTo turns span first from → IsLeastRoute (exits_of turns) span goal from list → length list ≤ count }
{}

/// After a list that serves a lane there is an elbow, and its shift is from -span to span.
pub fn serving_lists_stay_in_span()
    ensures { (turns : List RawTurn) (span lane : ℤ) (from : Place) (list : List ℕ) → ServesBy turns span lane from list → LeavesInSpan turns span from list }
{}
