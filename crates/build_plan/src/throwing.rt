//! The gliders that salvos ask for.

ghost use Rattle.std.specs.Prelude.{◌≡◌, ◌++◌, ◌^◌, OnOk};
ghost use Rattle.life_cells.specs.Boxes.{IsCellInRange};
ghost use Rattle.lane_clear.specs.Frames.{moved_frame};
ghost use Rattle.recipe_hit.specs.Checked.{IsSmallFrame};
ghost use Rattle.build_plan.specs.Throws.{hit_throws, list_throws};
ghost use Rattle.build_plan.specs.Visited.{AreVisited, IsCarried};
ghost use Rattle.build_plan.specs.Usable.{carrying_throws};

use crate::hands::place_past;
use crate::numbered::salvo_at;
use crate::throw::Throw;
use life_cells::{Cell, NoMemory};
use recipe_book::CheckedBook;
use recipe_hit::{CheckedSalvo, Hit};

/// The glider for a hit of a salvo, both by their numbers from 1 on.
fn throw_for(salvo: usize, place: usize, hit: &Hit, at: Cell) -> Throw
    requires hit { IsSmallFrame hit.now.frame }
    requires at { IsCellInRange (2 ^ 50) at }
    ensures { result ≡ record { salvo = salvo; place = place; at = at; lane = (moved_frame at hit.now.frame).lane } }
{
    Throw {
        salvo,
        place,
        at,
        lane: hit.frame.lane + at.x + at.y,
    }
}

/// Adds the gliders of a salvo's hits, in their order, where the hand stands there as the salvo begins.
pub(crate) fn push_salvo(
    throws: &mut Vec<Throw>,
    salvo: &CheckedSalvo,
    number: usize,
    at: Cell,
) -> Result<(), NoMemory>
    requires { IsCellInRange (2 ^ 50) at }
    ensures { OnOk result (throws.new.items ≡ throws.old.items ++ hit_throws number at 1 salvo.now.hits) }
{
    for (index, hit) in salvo.hits().iter().enumerate() {
        throws.push(throw_for(number, index + 1, hit, at))?;
    }
    Ok(())
}

/// Adds the gliders of salvos, by their numbers from 1 on, one after the other, each where the one before leaves the hand.
pub(crate) fn push_list(
    throws: &mut Vec<Throw>,
    book: &CheckedBook,
    from: Cell,
    list: &[usize],
) -> Result<(), NoMemory>
    requires { AreVisited book.now.salvos from list.now }
    ensures { OnOk result (throws.new.items ≡ throws.old.items ++ list_throws book.now.salvos from list.now) }
{
    let _ = book.settings();
    let mut place = from;
    for number in list {
        let salvo = salvo_at(book.salvos(), *number);
        push_salvo(throws, salvo, *number, place)?;
        place = place_past(salvo, place);
    }
    Ok(())
}

/// Adds the gliders of the salvos that carry a hand on its way; none where it is the first.
pub(crate) fn push_way(
    throws: &mut Vec<Throw>,
    book: &CheckedBook,
    from: Option<Cell>,
    way: &[usize],
) -> Result<(), NoMemory>
    requires { IsCarried book.now.salvos from way.now }
    ensures { OnOk result (throws.new.items ≡ throws.old.items ++ carrying_throws book.now.salvos from way.now) }
{
    match from {
        Some(from) => push_list(throws, book, from, way),
        None => Ok(()),
    }
}
