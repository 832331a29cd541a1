//! Candidates, one after the other.

ghost use Rattle.std.specs.Prelude.{◌≡◌, ◌≤◌, [], ◌∷◌, IfOk, IfSome, IfNone};
ghost use Rattle.book_parts.specs.Limits.{AreProper};
ghost use Rattle.find_order.specs.Candidates.{candidates, delays_by};
ghost use Rattle.find_order.specs.Coming.{IsUnderWay, delays_coming};
ghost use Rattle.find_order.specs.Listing.{IsListed};

use crate::candidate::Candidate;
use crate::delays::delays_by;
use crate::lists::Lists;
use book_parts::{Numbers, Range, Settings};
use life_cells::NoMemory;
use std::alloc::Global;
use std::marker::Model;

/// The candidates of a book that are still to come. Contracts see them as a list.
#[derive(Drop)]
pub struct Candidates {
    /// The lists of lanes.
    lanes: Lists,
    /// The range of gaps, and how many kinds there are.
    range: Range,
    kinds: usize,
    /// The kind whose lists of delays come next, and their gaps.
    kind: usize,
    gaps: Lists,
}

impl Model for Candidates {
    ghost use Rattle.std.specs.Prelude.{List};
    ghost use Rattle.find_order.specs.declared.candidate.Candidate.{Candidate};
    ghost use Rattle.find_order.specs.Coming.{coded_candidates, coming, IsUnderWay};

    ghost Value = { List Candidate };

    ghost coded = { coded_candidates };

    ghost view = { λ c. coming c.lanes.lists c.range c.kinds c.kind c.gaps.lists };

    ghost invariant = { λ c. IsUnderWay c.range c.kinds c.kind c.gaps };
}

impl Candidates {
    /// All candidates of a book with these settings and so many kinds.
    pub fn of(alloc: Global, settings: &Settings, kinds: usize) -> Result<Self, NoMemory>
        requires settings { AreProper settings.now }
        requires kinds { 1 ≤ kinds }
        ensures { IfOk result (λ all. all ≡ candidates settings.now kinds) }
    {
        let lanes = Lists::of(alloc, settings.lanes, 1)?;
        let gaps = Lists::of(alloc, settings.delays, 0)?;
        Ok(Candidates {
            lanes,
            range: settings.delays,
            kinds,
            kind: 1,
            gaps,
        })
    }

    /// The next candidate, if there is one left.
    pub fn next(&mut self, alloc: Global) -> Result<Option<Candidate>, NoMemory>
        ensures some { IfOk result (λ next. IfSome next (λ candidate. self.old ≡ candidate ∷ self.new)) }
        ensures none { IfOk result (λ next. IfNone next (self.old ≡ [])) }
    {
        if let Some(lanes) = self.lanes.next()? {
            let lanes = Numbers::from_slice(alloc, &lanes)?;
            return Ok(Some(Candidate::Lanes(lanes)));
        }
        let next = next_delays(
            alloc,
            self.range,
            self.kinds,
            &mut self.kind,
            &mut self.gaps,
        )?;
        Ok(next)
    }
}

/// The next list of delays, if there is one left.
fn next_delays(
    alloc: Global,
    range: Range,
    kinds: usize,
    kind: &mut usize,
    gaps: &mut Lists,
) -> Result<Option<Candidate>, NoMemory>
    requires { IsUnderWay range kinds kind.old gaps.old }
    ensures under_way { IsUnderWay range kinds kind.new gaps.new }
    ensures some { IfOk result (λ next. IfSome next (λ candidate. delays_coming range kinds kind.old gaps.old.lists ≡ candidate ∷ delays_coming range kinds kind.new gaps.new.lists)) }
    ensures none { IfOk result (λ next. IfNone next (delays_coming range kinds kind.old gaps.old.lists ≡ [])) }
{
    let Some(list) = next_gaps(alloc, range, kinds, kind, gaps)? else {
        return Ok(None);
    };
    let delays = Numbers::from_slice(alloc, &delays_by(alloc, &list)?)?;
    Ok(Some(Candidate::Delays {
        kind: *kind,
        delays,
    }))
}

/// The next list of gaps of a kind; where they are over, the first of the next kind, if there is one.
fn next_gaps(
    alloc: Global,
    range: Range,
    kinds: usize,
    kind: &mut usize,
    gaps: &mut Lists,
) -> Result<Option<Vec<i64>>, NoMemory>
    requires { IsUnderWay range kinds kind.old gaps.old }
    ensures under_way { IsUnderWay range kinds kind.new gaps.new }
    ensures some { IfOk result (λ next. IfSome next (λ list. delays_coming range kinds kind.old gaps.old.lists
        ≡ Candidate.Delays kind.new (delays_by list.items) ∷ delays_coming range kinds kind.new gaps.new.lists)) }
    ensures listed { IfOk result (λ next. IfSome next (λ list. IsListed range.low range.high range.len list.items)) }
    ensures none { IfOk result (λ next. IfNone next (delays_coming range kinds kind.old gaps.old.lists ≡ [])) }
{
    let next = gaps.next()?;
    if next.is_some() || *kind == kinds {
        return Ok(next);
    }
    *gaps = Lists::of(alloc, range, 0)?;
    *kind += 1;
    let Some(first) = gaps.next()? else {
        return Ok(None);
    };
    Ok(Some(first))
}
