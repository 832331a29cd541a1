//! The search for a usable salvo.

ghost use Rattle.std.specs.Prelude.{◌≡◌, ◌^◌, length, ◌↔◌, IsTrue, IfOk, OnOk, IfSome, IfNone};
ghost use Rattle.life_cells.specs.Cells.{alive};
ghost use Rattle.life_cells.specs.Boxes.{InBox, IsBoxInRange, IsCellInRange};
ghost use Rattle.elbow_graph.specs.Numbered.{IsNumbered};
ghost use Rattle.hand_route.specs.Moves.{leaves_hand};
ghost use Rattle.recipe_hit.specs.Checked.{Struck};
ghost use Rattle.recipe_book.specs.ByShape.{IsNumberOf};
ghost use Rattle.build_plan.specs.Trials.{IsFirstUsable, HasRoom, MayBegin, IsSearch, SameSearch, IsWalkedTo, built_with, IsLastHand, IsLeft, HasNoFarewell, stand_of, IsTrial, NoneUsable, AddsSome};
ghost use Rattle.build_plan.specs.Usable.{Taken, IsUsable, way_throws};
ghost use Rattle.build_plan.specs.Visited.{IsCarried};

use crate::farewell::say_farewell;
use crate::fitting::place_on;
use crate::hands::{hand_after, is_in_room};
use crate::numbered::salvo_at;
use crate::planner::Planner;
use crate::serving::serve;
use crate::throw::Throw;
use crate::throwing::{push_salvo, push_way};
use crate::trial::Trial;
use crate::walk::Walk;
use crate::ways::way_to;
use elbow_route::{Elbow, least_lists_are_one};
use hand_route::{HandWays, hand_lists_are_one, is_salvo_clear};
use lane_clear::BuiltSet;
use life_cells::{Bounds, Cell, NoMemory};
use life_islands::{Island, Shape};
use recipe_book::CheckedBook;
use recipe_hit::CheckedSalvo;
use std::alloc::Global;

/// A search for a salvo that is usable for the first of the islands left.
#[derive(Drop)]
pub(crate) struct Search<'a> {
    pub(crate) planner: &'a Planner<'a>,
    /// What is built.
    pub(crate) built: &'a BuiltSet,
    /// The hand's place, if there is a hand.
    pub(crate) place: Option<Cell>,
    /// The ways of the hand from there.
    pub(crate) ways: Option<HandWays<'a>>,
    /// The islands left, in their order.
    pub(crate) left: &'a [Island],
    /// The shape of the first of them, and the top left of its box.
    pub(crate) shape: Shape,
    pub(crate) corner: Cell,
}

/// Whether the hand may stand there as a salvo begins, and where the salvo leaves it: in the room, and gone only where no island is left.
fn has_room(room: Bounds, salvo: &CheckedSalvo, at: Cell, is_last: bool) -> bool
    requires { IsBoxInRange (2 ^ 50) room }
    ensures { IsTrue result ↔ HasRoom room at (leaves_hand salvo.now at) is_last }
{
    if !is_in_room(room, at) {
        return false;
    }
    match hand_after(salvo, at) {
        Some(place) => is_in_room(room, place),
        None => is_last,
    }
}

/// The gliders of the salvos that carry the hand to a place, and of the salvo there.
fn throws_for(
    alloc: Global,
    book: &CheckedBook,
    from: Option<Cell>,
    way: &[usize],
    number: usize,
    at: Cell,
) -> Result<Vec<Throw>, NoMemory>
    requires way { IsCarried book.now.salvos from way.now }
    requires number { (salvo : Struck) × IsNumbered book.now.salvos number salvo }
    requires at { IsCellInRange (2 ^ 50) at }
    ensures { IfOk result (λ throws. throws.items ≡ way_throws book.now.salvos from way.now number at) }
{
    let _ = book.settings();
    let mut throws = Vec::new(alloc);
    push_way(&mut throws, book, from, way)?;
    let salvo = salvo_at(book.salvos(), number);
    push_salvo(&mut throws, salvo, number, at)?;
    Ok(throws)
}

impl Search<'_> {
    /// Adds to what was walked the events of the salvos that carry the hand to a place, and of the salvo there; false where there is no way, or
    /// a lane has no list of turns.
    fn walk_to(
        &mut self,
        alloc: Global,
        walk: &mut Walk,
        number: usize,
        at: Cell,
    ) -> Result<bool, NoMemory>
        requires search { IsSearch self.old }
        requires number { (salvo : Struck) × IsNumbered self.old.planner.now.book.now.salvos number salvo }
        requires at { InBox self.old.planner.now.placing.room at.x at.y }
        ensures search { OnOk result (IsSearch self.new) }
        ensures stays { SameSearch self.old self.new }
        ensures walked { IfOk result (λ all. IsWalkedTo self.old walk.old walk.new number at all) }
    {
        // This says that least hand lists are one; it does nothing.
        hand_lists_are_one();
        let planner = self.planner;
        let Some(way) = way_to(alloc, &mut self.ways, at)? else {
            return Ok(false);
        };
        let throws = throws_for(alloc, planner.book, self.place, &way, number, at)?;
        let all = serve(alloc, planner.book, planner.graph, walk, &throws)?;
        Ok(all)
    }

    /// Whether no island is left after the first.
    fn is_last(&self) -> bool
        ensures { IsTrue result ↔ (length self.now.left.now ≡ 1) }
    {
        self.left.len() == 1
    }

    /// Whether a salvo may begin with the hand there: the hand has room, and each hit is clear of what is built.
    fn may_begin(&self, salvo: &CheckedSalvo, at: Cell) -> bool
        requires search { IsSearch self.now }
        requires at { IsCellInRange (2 ^ 41) at }
        ensures { IsTrue result ↔ MayBegin self.now salvo.now at }
    {
        let planner = self.planner;
        if !has_room(planner.placing.room, salvo, at, self.is_last()) {
            return false;
        }
        is_salvo_clear(planner.book.settings(), self.built, salvo, at)
    }

    /// What is built with the first island left.
    fn built_after(&self, alloc: Global) -> Result<BuiltSet, NoMemory>
        requires { IsSearch self.now }
        ensures { IfOk result (λ built. alive built ≡ built_with self.now) }
    {
        let built = BuiltSet::of(alloc, self.built.cells())?;
        built.with(&self.left[0].cells)
    }

    /// The hand that needs a farewell: one that is left where no island is.
    fn last_hand(&self, hand: Option<Cell>) -> Option<Cell>
        ensures { IsLastHand self.now.left.now hand result }
    {
        if self.is_last() { hand } else { None }
    }

    /// How a salvo is used whose events lead to this elbow: the last one with the farewell of the hand that it leaves. None where that hand
    /// has no farewell.
    fn trial(
        &self,
        alloc: Global,
        elbow: Elbow,
        salvo: &CheckedSalvo,
        at: Cell,
    ) -> Result<Option<Trial>, NoMemory>
        requires search { IsSearch self.now }
        requires begins { MayBegin self.now salvo.now at }
        ensures some { IfOk result (λ found. IfSome found (IsLeft self.now salvo.now at elbow)) }
        ensures none { IfOk result (λ found. IfNone found (HasNoFarewell self.now salvo.now at elbow)) }
    {
        let hand = hand_after(salvo, at);
        let Some(place) = self.last_hand(hand) else {
            return Ok(Some(Trial {
                at,
                hand,
                farewell: None,
            }));
        };
        let built = self.built_after(alloc)?;
        let Some(walk) = say_farewell(alloc, self.planner, &built, place, elbow)? else {
            return Ok(None);
        };
        Ok(Some(Trial {
            at,
            hand,
            farewell: Some(walk),
        }))
    }

    /// Tries the salvo with this number: its events, and those of the salvos that carry the hand to its place, are added to what was walked.
    /// None where it isn't usable; what was added then is of no use.
    fn try_salvo(
        &mut self,
        alloc: Global,
        walk: &mut Walk,
        number: usize,
    ) -> Result<Option<Trial>, NoMemory>
        requires search { IsSearch self.old }
        requires number { IsNumberOf self.old.planner.now.book.now.salvos (alive self.old.shape) number }
        ensures search { OnOk result (IsSearch self.new) }
        ensures stays { SameSearch self.old self.new }
        ensures some { IfOk result (λ found. IfSome found (IsTrial self.old.planner.now.book.now self.old.planner.now.placing.room (stand_of self.old walk.old.elbow) number walk.old walk.new)) }
        ensures none { IfOk result (λ found. IfNone found (NoneUsable self.old.planner.now.book.now self.old.planner.now.placing.room (stand_of self.old walk.old.elbow) number × AddsSome walk.old walk.new)) }
    {
        // These say that least lists are one; they do nothing.
        least_lists_are_one();
        hand_lists_are_one();
        let book = self.planner.book;
        let _ = book.settings();
        let salvo = salvo_at(book.salvos(), number);
        let at = place_on(salvo, self.corner);
        if !self.may_begin(salvo, at) {
            return Ok(None);
        }
        if !self.walk_to(alloc, walk, number, at)? {
            return Ok(None);
        }
        let trial = self.trial(alloc, walk.elbow, salvo, at)?;
        Ok(trial)
    }

    /// The first salvo, by number, that is usable for the first of the islands left: its events, and those of the salvos that carry the hand
    /// to its place, are added to what was walked. None where no salvo is usable.
    pub(crate) fn first_usable(
        &mut self,
        alloc: Global,
        walk: &mut Walk,
    ) -> Result<Option<Trial>, NoMemory>
        requires { IsSearch self.old }
        ensures some { IfOk result (λ found. IfSome found (IsFirstUsable self.old.planner.now.book.now self.old.planner.now.placing.room (stand_of self.old walk.old.elbow) walk.old walk.new)) }
        ensures none { IfOk result (λ found. IfNone found ((taken : Taken) → IsUsable self.old.planner.now.book.now self.old.planner.now.placing.room (stand_of self.old walk.old.elbow) taken → ⊥)) }
    {
        let book = self.planner.book;
        let _ = book.settings();
        let from = walk.elbow;
        let len = walk.len();
        for number in book.by_shape(&self.shape) {
            let found = self.try_salvo(alloc, walk, *number)?;
            if found.is_some() {
                return Ok(found);
            }
            walk.go_back(from, len);
        }
        Ok(None)
    }
}
