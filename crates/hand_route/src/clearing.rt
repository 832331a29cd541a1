//! Whether a salvo is clear of what is built.

ghost use Rattle.std.specs.Prelude.{◌↔◌, ◌^◌, IsTrue};
ghost use Rattle.std.specs.List.{AllByRecursion};
ghost use Rattle.life_cells.specs.Boxes.{IsCellInRange};
ghost use Rattle.life_cells.specs.Cells.{alive};
ghost use Rattle.book_parts.specs.Limits.{AreProper};
ghost use Rattle.recipe_hit.specs.declared.frame.Hit.{Hit};
ghost use Rattle.recipe_hit.specs.Checked.{AreSmallFrames};
ghost use Rattle.lane_clear.specs.Clear.{AreBeyond, IsAside, IsOffBounds};
ghost use Rattle.lane_clear.specs.Frames.{moved_frame, farthest};
ghost use Rattle.hand_route.specs.Clearings.{IsSalvoClear, AreAllBeyond, AreAllAside, AreAllOff};

use book_parts::Settings;
use lane_clear::{BuiltSet, are_beyond, moved_frame};
use life_cells::Cell;
use recipe_hit::{CheckedSalvo, Hit};

/// Whether each hit of a salvo, with the hand at a place before it, is clear of what is built. It takes no memory.
pub fn is_salvo_clear(
    settings: &Settings,
    built: &BuiltSet,
    salvo: &CheckedSalvo,
    place: Cell,
) -> bool
    requires settings { AreProper settings.now }
    requires place { IsCellInRange farthest place }
    ensures { IsTrue result ↔ IsSalvoClear settings.now (alive built.now) salvo.now place }
{
    let hits = salvo.hits();
    if !are_all_beyond(settings, hits, place) {
        return false;
    }
    are_all_aside(built, hits, place) && are_all_off(built, hits, place)
}

/// Whether the bounds of each hit are beyond the reach.
fn are_all_beyond(settings: &Settings, hits: &[Hit], place: Cell) -> bool
    requires settings { AreProper settings.now }
    requires hits { AreSmallFrames hits.now }
    requires place { IsCellInRange farthest place }
    ensures { IsTrue result ↔ AreAllBeyond settings.now place hits.now }
{
    for hit in hits {
        if !are_beyond(settings, moved_frame(hit.frame, place).bounds) {
            return false;
        }
    }
    true
}

/// Whether what is built is aside of the flight to each hit.
fn are_all_aside(built: &BuiltSet, hits: &[Hit], place: Cell) -> bool
    requires hits { AreSmallFrames hits.now }
    requires place { IsCellInRange farthest place }
    ensures { IsTrue result ↔ AreAllAside (alive built.now) place hits.now }
{
    for hit in hits {
        if !built.is_aside(moved_frame(hit.frame, place)) {
            return false;
        }
    }
    true
}

/// Whether what is built is off the bounds of each hit.
fn are_all_off(built: &BuiltSet, hits: &[Hit], place: Cell) -> bool
    requires hits { AreSmallFrames hits.now }
    requires place { IsCellInRange farthest place }
    ensures { IsTrue result ↔ AreAllOff (alive built.now) place hits.now }
{
    for hit in hits {
        if !built.is_off(moved_frame(hit.frame, place).bounds) {
            return false;
        }
    }
    true
}
