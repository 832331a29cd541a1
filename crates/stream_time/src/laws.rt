//! What the patterns that a book builds are made of.

ghost use Rattle.std.specs.Prelude.{List};
ghost use Rattle.life_plane.specs.Plane.{Plane};
ghost use Rattle.life_cells.specs.Cells.{alive};
ghost use Rattle.life_islands.specs.Islands.{AreIslands};
ghost use Rattle.life_islands.specs.declared.island.Island.{Island};
ghost use Rattle.recipe_book.specs.Checked.{CheckedEntries, IsCheckedBook};
ghost use Rattle.stream_time.specs.Built.{IsBuilt};
ghost use Rattle.stream_time.specs.Parts.{HasParts};
ghost use Rattle.stream_time.specs.declared.building.Built.{Built as Shown};

use build_plan::laws::{plans_construct, plans_hit_where_islands_are};
use plan_facts::{chosen_times_are_valid, streams_are_one_lane};

/// A pattern that a book builds is its start elbow, one hand where the target has an island and none otherwise, and gliders on one lane, each
/// at least 20 generations behind the one before it.
pub fn patterns_have_three_parts()
    ensures { (book : CheckedEntries) → IsCheckedBook book → (target : Plane) (built : Shown) → IsBuilt book target built →
        (islands : List Island) → AreIslands target islands → HasParts book islands (alive built.pattern) }
{
    // These say that a plan is a construction with a hand where there is an island, and that with chosen times its stream is one lane; they do
    // nothing.
    plans_construct();
    plans_hit_where_islands_are();
    chosen_times_are_valid();
    streams_are_one_lane();
}
