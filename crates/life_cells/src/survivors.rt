//! Which of the marked places live on.

ghost use Rattle.std.specs.Prelude.{◌≡◌, ◌++◌, ℤ, IfOk, OnOk, cond};
ghost use Rattle.std.specs.List.Sorted.{IsSorted};
ghost use Rattle.life_cells.specs.Cells.{cell, cell_cmp, IsRising};
ghost use Rattle.life_cells.specs.Listed.{listed, times};
ghost use Rattle.life_cells.specs.Survivors.{lives_with, kept};

use crate::cell::Cell;
use crate::cell_set::CellSet;
use crate::memory::NoMemory;
use std::alloc::Global;

/// The places that live on, of marks in order, where these cells are live.
pub(crate) fn survivors(
    alloc: Global,
    marks: &[Cell],
    live: &CellSet,
) -> Result<Vec<Cell>, NoMemory>
    requires { IsSorted cell_cmp marks.now }
    ensures rising { IfOk result (λ next. IsRising next.items) }
    ensures lives { IfOk result
        (λ next. (x y : ℤ) → listed next.items x y ≡ lives_with live.now (cell x y) (times marks.now x y)) }
{
    let mut next = Vec::new(alloc);
    let [first, rest @ ..] = marks else {
        return Ok(next);
    };
    let mut place = *first;
    let mut times: usize = 1;
    for mark in rest {
        if *mark == place {
            times += 1;
        } else {
            push_if_lives(&mut next, place, times, live)?;
            place = *mark;
            times = 1;
        }
    }
    push_if_lives(&mut next, place, times, live)?;
    Ok(next)
}

/// Appends a place that was marked so many times, if it lives on.
fn push_if_lives(
    next: &mut Vec<Cell>,
    place: Cell,
    times: usize,
    live: &CellSet,
) -> Result<(), NoMemory>
    ensures { OnOk result (next.new.items ≡ next.old.items ++ kept (lives_with live.now) place times) }
{
    if times == 3 || times == 4 && live.contains(place) {
        next.push(place)?;
    }
    Ok(())
}
