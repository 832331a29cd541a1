//! The first cell in just one of two lists.

ghost use Rattle.std.specs.Prelude.{◌≡◌, IfSome, IfNone};
ghost use Rattle.life_cells.specs.Cells.{IsRising};
ghost use Rattle.life_cells.specs.Difference.{IsFirstDifference};
ghost use Rattle.life_cells.specs.Listed.{listed};

use crate::cell::Cell;
use std::cmp::Ordering;

/// The first cell in just one of two lists that are in order; None exactly where they are equal.
pub(crate) fn first_difference_of(left: &[Cell], right: &[Cell]) -> Option<Cell>
    requires left_rises { IsRising left.now }
    requires right_rises { IsRising right.now }
    ensures some { IfSome result (λ c. IsFirstDifference c (listed left.now) (listed right.now)) }
    ensures none { IfNone result (left.now ≡ right.now) }
{
    let mut i = 0;
    'same: while i < left.len() && i < right.len() {
        let (a, b) = (left[i], right[i]);
        match a.cmp(&b) {
            Ordering::Less => return Some(a),
            Ordering::Equal => i += 1,
            Ordering::Greater => return Some(b),
        }
    }
    if i < left.len() {
        return Some(left[i]);
    }
    if i < right.len() {
        return Some(right[i]);
    }
    None
}
