//! Delays of gliders from the gaps between them.

ghost use Rattle.std.specs.Prelude.{◌≡◌, ◌≤◌, ◌≤ℤ◌, ℤ, pos, length, IfOk};
ghost use Rattle.std.specs.List.{AllByRecursion};
ghost use Rattle.book_parts.specs.Proper.{IsDelay};
ghost use Rattle.book_parts.specs.declared.limits.TheConstants.{MOST_GAPS};
ghost use Rattle.find_order.specs.Candidates.{delays_by};

use life_cells::NoMemory;
use std::alloc::Global;

/// The delays with these gaps between them, the first of which is 0.
pub(crate) fn delays_by(alloc: Global, gaps: &[i64]) -> Result<Vec<i64>, NoMemory>
    requires few { length gaps.now ≤ MOST_GAPS }
    requires small { AllByRecursion (IsDelay) gaps.now }
    ensures { IfOk result (λ delays. delays.items ≡ delays_by gaps.now) }
{
    let mut delays = Vec::new(alloc);
    let mut time = 0;
    delays.push(time)?;
    for gap in gaps {
        time += *gap;
        delays.push(time)?;
    }
    Ok(delays)
}
