//! The least lists of salvos that carry a hand to a place, or take it away.

ghost use Rattle.std.specs.Prelude.{◌^◌, ℕ, List, IfOk, IfSome, IfNone};
ghost use Rattle.life_cells.specs.Boxes.{IsInRange, InBox};
ghost use Rattle.life_cells.specs.Cells.{alive};
ghost use Rattle.book_parts.specs.Limits.{AreProper};
ghost use Rattle.hand_route.specs.Lists.{IsHandList, IsFarewell, IsLeastHandList, IsLeastFarewell};
ghost use Rattle.hand_route.specs.Moves.{site};
ghost use Rattle.hand_route.specs.Rooms.{IsRoom};

use crate::salvos::HandSalvos;
use crate::ways::HandWays;
use book_parts::Settings;
use lane_clear::BuiltSet;
use life_cells::{Bounds, Cell, CellSet, NoMemory};
use recipe_hit::CheckedSalvo;
use std::alloc::Global;

/// The least list of salvos, by their numbers from 1 on, that carry the hand from a place to another: salvos that build nothing, each hit of
/// them clear of what is built at the place before its salvo, with all places in the room. It is empty where both places are one. Least is
/// the shortest, and of these the first number by number. None exactly where there is no such list. Where more than one list from a place is
/// asked for, `HandWays` serves them all.
pub fn route_hand(
    alloc: Global,
    settings: &Settings,
    salvos: &[CheckedSalvo],
    from: Cell,
    to: Cell,
    built: &CellSet,
    room: Bounds,
) -> Result<Option<Vec<usize>>, NoMemory>
    requires settings { AreProper settings.now }
    requires built { IsInRange (2 ^ 50) (alive built.now) }
    requires room { IsRoom room }
    requires from { InBox room from.x from.y }
    ensures some { IfOk result (λ found. IfSome found (λ list. IsLeastHandList (site settings.now salvos.now room (alive built.now)) from list.items to)) }
    ensures none { IfOk result (λ found. IfNone found ((list : List ℕ) → IsHandList (site settings.now salvos.now room (alive built.now)) from list to → ⊥)) }
{
    let salvos = HandSalvos::of(alloc, settings, salvos)?;
    let built = BuiltSet::of(alloc, built)?;
    let mut ways = HandWays::start(alloc, &salvos, &built, room, from)?;
    ways.list_to(alloc, to)
}

/// The least list of salvos, by their numbers from 1 on, that take the hand away from a place: as those of `route_hand`, and last one that
/// leaves no hand, clear likewise. None exactly where there is no such list.
pub fn route_farewell(
    alloc: Global,
    settings: &Settings,
    salvos: &[CheckedSalvo],
    from: Cell,
    built: &CellSet,
    room: Bounds,
) -> Result<Option<Vec<usize>>, NoMemory>
    requires settings { AreProper settings.now }
    requires built { IsInRange (2 ^ 50) (alive built.now) }
    requires room { IsRoom room }
    requires from { InBox room from.x from.y }
    ensures some { IfOk result (λ found. IfSome found (λ list. IsLeastFarewell (site settings.now salvos.now room (alive built.now)) from list.items)) }
    ensures none { IfOk result (λ found. IfNone found ((list : List ℕ) → IsFarewell (site settings.now salvos.now room (alive built.now)) from list → ⊥)) }
{
    let salvos = HandSalvos::of(alloc, settings, salvos)?;
    let built = BuiltSet::of(alloc, built)?;
    let mut ways = HandWays::start(alloc, &salvos, &built, room, from)?;
    ways.farewell(alloc)
}
