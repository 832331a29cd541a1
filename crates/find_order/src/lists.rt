//! Lists of numbers of a range, one after the other.

ghost use Rattle.std.specs.Prelude.{◌≡◌, ◌≤◌, ◌-◌, ◌≤ℤ◌, [], ◌∷◌, suc, not, IfOk, IfSome, IfNone};
ghost use Rattle.find_order.specs.Lists.{numbers, lists_up};
ghost use Rattle.find_order.specs.Ahead.{on_from, to_come};
ghost use Rattle.find_order.specs.Listing.{IsListed};

use crate::advance::advance;
use book_parts::Range;
use life_cells::NoMemory;
use std::alloc::Global;
use std::marker::Model;

/// The lists of numbers of a range that are still to come: shorter ones first, and of one length number by number.
#[derive(Drop)]
pub(crate) struct Lists {
    low: i64,
    high: i64,
    longest: usize,
    /// The next list.
    list: Vec<i64>,
    /// Whether all have been.
    over: bool,
}

impl Model for Lists {
    ghost use Rattle.find_order.specs.Listing.{Listing, coded_listing, IsListed};
    ghost use Rattle.find_order.specs.Ahead.{to_come};

    ghost Value = { Listing };

    ghost coded = { coded_listing };

    ghost view = { λ l. record { low = l.low; high = l.high; longest = l.longest; lists = to_come l.over l.low l.high l.longest l.list.items } };

    ghost invariant = { λ l. IsListed l.low l.high l.longest l.list.items };
}

/// Makes a list of numbers from low to high the next one, shorter ones first, and says whether there is one, up to the longest.
fn move_on(list: &mut Vec<i64>, low: i64, high: i64, longest: usize) -> Result<bool, NoMemory>
    requires { IsListed low high longest list.old.items }
    ensures listed { IsListed low high longest list.new.items }
    ensures next { IfOk result (λ more. on_from low high longest list.old.items ≡ list.old.items ∷ to_come (not more) low high longest list.new.items) }
{
    if advance(list, low, high) {
        return Ok(true);
    }
    if list.len() == longest {
        return Ok(false);
    }
    list.push(low)?;
    Ok(true)
}

impl Lists {
    /// All lists of a range from this length on.
    pub(crate) fn of(alloc: Global, range: Range, shortest: usize) -> Result<Self, NoMemory>
        requires order { range.low ≤ℤ range.high }
        requires some { shortest ≤ range.len }
        ensures { IfOk result (λ lists. lists ≡ record {
          low = range.low;
          high = range.high;
          longest = range.len;
          lists = lists_up (numbers range.low range.high) shortest (suc (range.len - shortest));
        }) }
    {
        let list = vec![in alloc; range.low; shortest]?;
        Ok(Lists {
            low: range.low,
            high: range.high,
            longest: range.len as usize,
            list,
            over: false,
        })
    }

    /// The next list, if not all have been.
    pub(crate) fn next(&mut self) -> Result<Option<Vec<i64>>, NoMemory>
        ensures range { self.new ≡ record self.old { lists = self.new.lists } }
        ensures some { IfOk result (λ next. IfSome next (λ list. self.old.lists ≡ list.items ∷ self.new.lists)) }
        ensures listed { IfOk result (λ next. IfSome next (λ list. IsListed self.old.low self.old.high self.old.longest list.items)) }
        ensures none { IfOk result (λ next. IfNone next ((self.old.lists ≡ []) × (self.new.lists ≡ []))) }
    {
        if self.over {
            return Ok(None);
        }
        let list = self.list.clone()?;
        self.over = !move_on(&mut self.list, self.low, self.high, self.longest)?;
        Ok(Some(list))
    }
}
