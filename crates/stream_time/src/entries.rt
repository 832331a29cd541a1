//! A book's hits by the numbers of their salvos and their places.

ghost use Rattle.std.specs.Prelude.{◌≤◌, length};
ghost use Rattle.book_parts.specs.declared.limits.TheConstants.{MOST_SALVOS};
ghost use Rattle.elbow_graph.specs.Numbered.{IsNumbered};
ghost use Rattle.recipe_hit.specs.Checked.{Struck};
ghost use Rattle.recipe_hit.specs.declared.frame.Hit.{Hit};

use build_plan::numbered::salvo_at;
use recipe_hit::{CheckedSalvo, Hit};

/// The hit at this place of the salvo with this number, both counted from 1.
pub(crate) fn hit_at(salvos: &[CheckedSalvo], number: usize, place: usize) -> &Hit
    requires few { length salvos.now ≤ MOST_SALVOS }
    requires numbered { (salvo : Struck) × (IsNumbered salvos.now number salvo × ((hit : Hit) × IsNumbered salvo.hits place hit)) }
    ensures { (salvo : Struck) → IsNumbered salvos.now number salvo → IsNumbered salvo.hits place result.now }
{
    let salvo = salvo_at(salvos, number);
    let hits = salvo.hits();
    &hits[place - 1]
}
