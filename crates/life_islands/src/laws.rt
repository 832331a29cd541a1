//! Laws of islands and shapes.

ghost use Rattle.std.specs.Prelude.{◌≡◌, ◌⊎◌, ◌↔◌, ℤ, List};
ghost use Rattle.life_cells.specs.Moved.{moved};
ghost use Rattle.life_cells.specs.declared.cell.Cell.{Cell};
ghost use Rattle.life_islands.specs.declared.island.Island.{Island};
ghost use Rattle.life_islands.specs.Islands.{IsIsland, AreIslands, IsInOne, rest_of};
ghost use Rattle.life_islands.specs.Joined.{Lives};
ghost use Rattle.life_islands.specs.MovedIslands.{AreMovedIslands};
ghost use Rattle.life_islands.specs.Shapes.{IsShapeOf};
ghost use Rattle.life_plane.specs.Apart.{Apart};
ghost use Rattle.life_plane.specs.Plane.{Plane, IsStill, shift};

/// Each island of a still set is still.
pub fn islands_of_still_sets_are_still()
    ensures { (s t : Plane) → IsStill s → IsIsland s t → IsStill t }
{}

/// An island is apart from the rest of its set.
pub fn islands_are_apart_from_the_rest()
    ensures { (s t : Plane) → IsIsland s t → Apart t (rest_of s t) }
{}

/// Two islands of a set are one, or they are apart.
pub fn islands_are_equal_or_apart()
    ensures { (s t r : Plane) → IsIsland s t → IsIsland s r → (t ≡ r) ⊎ Apart t r }
{}

/// A set has one list of islands.
pub fn sets_have_one_list_of_islands()
    ensures { (s : Plane) (islands others : List Island) → AreIslands s islands → AreIslands s others → islands ≡ others }
{}

/// What lives in a set is what lives in one of its islands.
pub fn islands_are_all_of_their_set()
    ensures { (s : Plane) (islands : List Island) (c : Cell) → AreIslands s islands → (IsInOne islands c ↔ Lives s c) }
{}

/// The islands of a moved set are its islands moved, one by one.
pub fn islands_move_with_their_set()
    ensures { (dx dy : ℤ) (s : Plane) (islands others : List Island) → AreIslands s islands → AreIslands (shift dx dy s) others → AreMovedIslands dx dy islands others }
{}

/// A set has one shape and one corner.
pub fn sets_have_one_shape()
    ensures { (s a b : Plane) (c d : Cell) → IsShapeOf s a c → IsShapeOf s b d → (a ≡ b) × (c ≡ d) }
{}

/// A moved set has the same shape, and its corner is the moved one.
pub fn moved_sets_have_the_same_shape()
    ensures { (dx dy : ℤ) (s shape : Plane) (corner : Cell) → IsShapeOf s shape corner → IsShapeOf (shift dx dy s) shape (moved dx dy corner) }
{}
