//! Hits that were made before.

ghost use Rattle.std.specs.Prelude.{◌≡◌, ◌+◌, ◌≤◌, ◌^◌, IfOk, IfSome, IfNone};
ghost use Rattle.life_cells.specs.Boxes.{IsInRange};
ghost use Rattle.life_cells.specs.Cells.{alive};
ghost use Rattle.book_parts.specs.Limits.{IsCoordinate};
ghost use Rattle.recipe_hit.specs.Strike.{IsHit};
ghost use Rattle.recipe_hit.specs.Refusals.{HasNoHit};
ghost use Rattle.recipe_hit.specs.declared.limits.TheConstants.{MOST_COUNTED};
ghost use Rattle.find_salvo.specs.Memo.{IsAnswer};

use crate::strike::Strike;
use life_cells::{CellSet, NoMemory};
use life_steps::Steps;
use lru::LruCache;
use recipe_hit::{Hit, HitRefusal, hit};
use std::alloc::Global;
use std::marker::Model;
use std::num::NonZeroUsize;
use std::sync::ledger::Ledger;

/// The most hits that are remembered.
pub const MOST_REMEMBERED: usize = 1_024;

/// The hits of gliders that were asked for, those last asked for, whatever the list of lanes; a lane that had none is remembered too. Contracts
/// see what was struck, the lane, and its hit, if it has one.
#[derive(Drop)]
pub struct HitMemo {
    /// There is none before the first is remembered.
    cache: Option<LruCache<Strike, Option<Hit>>>,
}

impl Model for HitMemo {
    ghost use Rattle.find_salvo.specs.Memo.{Entry, coded_entries, entries_of, IsMemo};
    ghost use Rattle.std.specs.Prelude.{List};

    ghost Value = { List Entry };

    ghost coded = { coded_entries };

    ghost view = { λ m. entries_of m.cache };

    ghost invariant = { λ m. IsMemo m.cache };
}

impl HitMemo {
    /// Nothing is remembered. It takes no memory.
    pub(crate) fn empty() -> Self {
        HitMemo { cache: None }
    }

    /// The hit of a glider of a lane with what is left; None exactly where it has none. It is made where it isn't remembered, and is then
    /// remembered.
    pub(crate) fn hit_of<L: Ledger>(
        &mut self,
        alloc: Global,
        left: &CellSet,
        lane: i64,
        steps: &mut Steps<L>,
    ) -> Result<Option<Hit>, NoMemory>
        requires range { IsInRange (2 ^ 40) (alive left.now) }
        requires lane { IsCoordinate lane }
        ensures some { IfOk result (λ found. IfSome found (IsHit (alive left.now) lane)) }
        ensures none { IfOk result (λ found. IfNone found (HasNoHit (alive left.now) lane)) }
        ensures least { steps.old ≤ steps.new }
        ensures most { steps.new ≤ steps.old + MOST_COUNTED }
    {
        let strike = Strike {
            left: left.copy()?,
            lane,
        };
        if let Some(known) = self.recall(&strike)? {
            return Ok(known);
        }
        let made = hit_of(alloc, left, lane, steps)?;
        self.remember(alloc, strike, copy_of(&made)?)?;
        Ok(made)
    }

    /// What is remembered of a strike, which is then the one last asked for.
    fn recall(&mut self, strike: &Strike) -> Result<Option<Option<Hit>>, NoMemory>
        ensures { IfOk result (λ known. IfSome known (IsAnswer (alive strike.now.left) strike.now.lane)) }
    {
        let Some(cache) = &mut self.cache else {
            return Ok(None);
        };
        let Some(known) = cache.get(strike) else {
            return Ok(None);
        };
        Ok(Some(copy_of(known)?))
    }

    /// Remembers the hit of a strike, or that it has none.
    fn remember(&mut self, alloc: Global, strike: Strike, made: Option<Hit>) -> Result<(), NoMemory>
        requires { IsAnswer (alive strike.left) strike.lane made }
    {
        if let Some(cache) = &mut self.cache {
            cache.put(strike, made)?;
            return Ok(());
        }
        let mut cache = LruCache::sparse(alloc, NonZeroUsize::new(MOST_REMEMBERED).unwrap())?;
        cache.put(strike, made)?;
        self.cache = Some(cache);
        Ok(())
    }
}

/// An equal hit, if there is one.
fn copy_of(made: &Option<Hit>) -> Result<Option<Hit>, NoMemory>
    ensures { IfOk result (λ copy. copy ≡ made.now) }
{
    match made {
        Some(hit) => Ok(Some(Hit {
            after: hit.after.copy()?,
            generations: hit.generations,
            frame: hit.frame,
        })),
        None => Ok(None),
    }
}

/// The hit of a glider of a lane with what is left; None exactly where it has none.
fn hit_of<L: Ledger>(
    alloc: Global,
    left: &CellSet,
    lane: i64,
    steps: &mut Steps<L>,
) -> Result<Option<Hit>, NoMemory>
    requires range { IsInRange (2 ^ 40) (alive left.now) }
    requires lane { IsCoordinate lane }
    ensures some { IfOk result (λ found. IfSome found (IsHit (alive left.now) lane)) }
    ensures none { IfOk result (λ found. IfNone found (HasNoHit (alive left.now) lane)) }
    ensures least { steps.old ≤ steps.new }
    ensures most { steps.new ≤ steps.old + MOST_COUNTED }
{
    match hit(alloc, left, lane, steps) {
        Ok(hit) => Ok(Some(hit)),
        Err(HitRefusal::Empty) => Ok(None),
        Err(HitRefusal::NotSettled { .. }) => Ok(None),
        Err(HitRefusal::Memory) => Err(NoMemory),
    }
}
