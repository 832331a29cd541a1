//! Laws of the lists of salvos that lead the hand.

ghost use Rattle.std.specs.Prelude.{◌≡◌, ℕ, List, Some, None};
ghost use Rattle.life_cells.specs.Boxes.{InBox};
ghost use Rattle.life_cells.specs.declared.cell.Cell.{Cell};
ghost use Rattle.hand_route.specs.Moves.{Site};
ghost use Rattle.hand_route.specs.Lists.{IsHandList, IsFarewell, IsLeastHandList, IsLeastFarewell};
ghost use Rattle.hand_route.specs.Visits.{GoesFree};

/// There is at most one least hand list from a place to another.
pub fn hand_lists_are_one()
    ensures { (site : Site) (from to : Cell) (a b : List ℕ) → IsLeastHandList site from a to → IsLeastHandList site from b to → a ≡ b }
{}

/// There is at most one least farewell from a place.
pub fn farewells_are_one()
    ensures { (site : Site) (from : Cell) (a b : List ℕ) → IsLeastFarewell site from a → IsLeastFarewell site from b → a ≡ b }
{}

/// A hand list from a place in the room: before each of its salvos the hand is at a place in the room, where each hit of the salvo is clear,
/// and so is the place where the last one leaves the hand.
pub fn hand_lists_go_free()
    ensures { (site : Site) (from : Cell) (list : List ℕ) (to : Cell) → InBox site.room from.x from.y → IsHandList site from list to →
        GoesFree site from list (Some to) × InBox site.room to.x to.y }
{}

/// A farewell from a place in the room: before each of its salvos the hand is at a place in the room, where each hit of the salvo is clear,
/// and the last one leaves no hand.
pub fn farewells_go_free()
    ensures { (site : Site) (from : Cell) (list : List ℕ) → InBox site.room from.x from.y → IsFarewell site from list → GoesFree site from list None }
{}
