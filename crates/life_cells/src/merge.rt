//! Two lists of cells in order, made one.

ghost use Rattle.std.specs.Prelude.{◌≡◌, IfOk};
ghost use Rattle.life_cells.specs.Cells.{IsRising};
ghost use Rattle.life_cells.specs.Listed.{listed};
ghost use Rattle.life_plane.specs.Plane.{union};

use crate::cell::Cell;
use crate::memory::NoMemory;
use std::alloc::Global;
use std::cmp::Ordering;

/// The cells of either list, each once, in order.
pub(crate) fn merged(alloc: Global, left: &[Cell], right: &[Cell]) -> Result<Vec<Cell>, NoMemory>
    requires left_rises { IsRising left.now }
    requires right_rises { IsRising right.now }
    ensures rising { IfOk result (λ cs. IsRising cs.items) }
    ensures both { IfOk result (λ cs. listed cs.items ≡ union (listed left.now) (listed right.now)) }
{
    let mut all = Vec::new(alloc);
    let mut i = 0;
    let mut j = 0;
    'cells: while i < left.len() && j < right.len() {
        let (a, b) = (left[i], right[j]);
        match a.cmp(&b) {
            Ordering::Less => {
                all.push(a)?;
                i += 1;
            }
            Ordering::Equal => {
                all.push(a)?;
                i += 1;
                j += 1;
            }
            Ordering::Greater => {
                all.push(b)?;
                j += 1;
            }
        }
    }
    all.extend_from_slice(&left[i..])?;
    all.extend_from_slice(&right[j..])?;
    Ok(all)
}
