//! Hits that are kept from list to list.

ghost use Rattle.std.specs.Prelude.{◌≡◌, ◌+◌, ◌*◌, ◌++◌, ◌∷◌, [], ◌<◌, ◌≤◌, length, take, IsTrue, IsFalse, IfOk, IfSome, IfNone};
ghost use Rattle.std.specs.List.{AllByRecursion};
ghost use Rattle.life_cells.specs.Cells.{alive};
ghost use Rattle.book_parts.specs.Limits.{IsCoordinate};
ghost use Rattle.book_parts.specs.declared.limits.TheConstants.{MOST_LANES};
ghost use Rattle.recipe_hit.specs.Refusals.{HasNoHit};
ghost use Rattle.recipe_hit.specs.declared.limits.TheConstants.{MOST_COUNTED};
ghost use Rattle.find_salvo.specs.Salvos.{IsSalvoOutcome, HasNoSalvo};
ghost use Rattle.find_salvo.specs.Kept.{lanes_of, left_so_far, IsKept};

use crate::ending::outcome_of;
use crate::memo::HitMemo;
use crate::outcome::Outcome;
use life_cells::NoMemory;
use life_steps::Steps;
use recipe_hit::in_turn::left_by;
use recipe_hit::{Hand, Hit};
use std::alloc::Global;
use std::marker::Model;
use std::sync::ledger::Ledger;

/// The hits at a hand of the lanes of a list. The next list strikes anew only from the first lane in which it differs, so lists in an order in
/// which mostly the last lane changes cost about one hit each, and none where that was made before and is still remembered. Contracts see the
/// hand's cells, these hits, and a lane that was found to have none behind them; no answer depends on what is remembered.
#[derive(Drop)]
pub struct SalvoHits<'a> {
    hand: &'a Hand,
    hits: Vec<Hit>,
    missing: Option<i64>,
    memo: HitMemo,
}

impl<'a> Model for SalvoHits<'a> {
    ghost use Rattle.find_salvo.specs.Kept.{Kept, coded_kept, IsKept};

    ghost Value = { Kept };

    ghost coded = { coded_kept };

    ghost view = { λ k. record { hand = k.hand.now; hits = k.hits.items; missing = k.missing } };

    ghost invariant = { λ k. IsKept (record { hand = k.hand.now; hits = k.hits.items; missing = k.missing }) };
}

impl<'a> SalvoHits<'a> {
    /// No hit yet. It takes no memory.
    pub fn start(alloc: Global, hand: &'a Hand) -> SalvoHits<'a>
        ensures { result.hand ≡ hand.now }
    {
        SalvoHits {
            hand,
            hits: Vec::new(alloc),
            missing: None,
            memo: HitMemo::empty(),
        }
    }

    /// The outcome of gliders of these lanes, one after the other, at the hand. None exactly where one of them has no hit, or what the last one
    /// leaves has no outcome. At most 4,097 generations a lane are counted.
    pub fn outcome<L: Ledger>(
        &mut self,
        alloc: Global,
        lanes: &[i64],
        steps: &mut Steps<L>,
    ) -> Result<Option<Outcome>, NoMemory>
        requires few { length lanes.now ≤ MOST_LANES }
        requires lanes { AllByRecursion IsCoordinate lanes.now }
        ensures hand { self.new.hand ≡ self.old.hand }
        ensures some { IfOk result (λ found. IfSome found (IsSalvoOutcome (alive self.old.hand) lanes.now)) }
        ensures none { IfOk result (λ found. IfNone found (HasNoSalvo (alive self.old.hand) lanes.now)) }
        ensures least { steps.old ≤ steps.new }
        ensures most { steps.new ≤ steps.old + MOST_COUNTED * length lanes.now }
    {
        let shared = self.keep_shared(lanes);
        for lane in &lanes[shared..] {
            if !self.strike(alloc, *lane, steps)? {
                return Ok(None);
            }
        }
        outcome_of(alloc, self.hand, left_by(self.hand.cells(), &self.hits))
    }

    /// Keeps the hits of the first lanes of a list, as far as they are those of the kept hits, and answers how many.
    fn keep_shared(&mut self, lanes: &[i64]) -> usize
        ensures hand { self.new.hand ≡ self.old.hand }
        ensures within { result ≤ length lanes.now }
        ensures hits { lanes_of self.new.hits ≡ take result lanes.now }
        ensures kept { IsKept self.new }
    {
        let shared = shared_lanes(&self.hits, lanes);
        if shared < self.hits.len() {
            self.hits.truncate(shared);
            self.missing = None;
        }
        shared
    }

    /// Whether a glider of one lane more has a hit, which is then kept.
    fn strike<L: Ledger>(
        &mut self,
        alloc: Global,
        lane: i64,
        steps: &mut Steps<L>,
    ) -> Result<bool, NoMemory>
        requires few { length self.old.hits < MOST_LANES }
        requires lane { IsCoordinate lane }
        ensures hand { self.new.hand ≡ self.old.hand }
        ensures hit { IfOk result (λ there. IsTrue there → lanes_of self.new.hits ≡ lanes_of self.old.hits ++ lane ∷ []) }
        ensures none { IfOk result (λ there. IsFalse there → HasNoHit (left_so_far self.old) lane) }
        ensures kept { IsKept self.new }
        ensures least { steps.old ≤ steps.new }
        ensures most { steps.new ≤ steps.old + MOST_COUNTED }
    {
        if self.missing == Some(lane) {
            return Ok(false);
        }
        let left = left_by(self.hand.cells(), &self.hits);
        match self.memo.hit_of(alloc, left, lane, steps)? {
            Some(hit) => {
                self.hits.push(hit)?;
                self.missing = None;
                Ok(true)
            }
            None => {
                self.missing = Some(lane);
                Ok(false)
            }
        }
    }
}

/// How many of the first lanes of a list are those of the first hits, one by one.
fn shared_lanes(hits: &[Hit], lanes: &[i64]) -> usize
    ensures hits { result ≤ length hits.now }
    ensures lanes { result ≤ length lanes.now }
    ensures shared { take result (lanes_of hits.now) ≡ take result lanes.now }
{
    for (place, hit) in hits.iter().enumerate() {
        if place == lanes.len() || lanes[place] != hit.frame.lane {
            return place;
        }
    }
    hits.len()
}
