//! Finite sets of cells, in a sorted vector.

ghost use Rattle.std.specs.Prelude.{◌≡◌, ◌↔◌, [], ◌∷◌, false, true, not, length, IfOk, OnOk, OnErr, IfSome, IfNone, IsTrue, slice_get, ◌+ℤ◌};
ghost use Rattle.std.specs.List.{filter};
ghost use Rattle.life_cells.specs.Cells.{Cells, coded_cells, IsRising, in_order, alive, from_list, empty};
ghost use Rattle.life_cells.specs.Boxes.{IsLeastBox, CanMove};
ghost use Rattle.life_cells.specs.Close.{Close, is_close_in_row};
ghost use Rattle.life_cells.specs.Difference.{IsFirstDifference};
ghost use Rattle.life_cells.specs.Listed.{listed};
ghost use Rattle.life_plane.specs.Apart.{Apart};
ghost use Rattle.life_plane.specs.Plane.{union, shift};

use crate::apart::are_apart;
use crate::bounding::bounds_of;
use crate::bounds::Bounds;
use crate::cell::Cell;
use crate::close::{close_in_row, has_close};
use crate::difference::first_difference_of;
use crate::memory::NoMemory;
use crate::merge::merged;
use crate::moved::push_moved;
use std::alloc::Global;
use std::marker::Model;

/// A finite set of cells, in (y,x) order.
#[derive(Debug, Drop)]
pub struct CellSet {
    cells: Vec<Cell>,
}

impl Model for CellSet {
    ghost Value = { Cells };

    ghost coded = { coded_cells };

    ghost view = { λ s. from_list s.cells.items };

    ghost invariant = { λ s. IsRising s.cells.items };
}

impl CellSet {
    /// The set with no cell. It takes no memory.
    pub fn empty(alloc: Global) -> Self
        ensures { result ≡ empty }
    {
        CellSet {
            cells: Vec::new(alloc),
        }
    }

    /// The set of these cells, in any order, repeats allowed.
    pub fn from_cells(alloc: Global, cells: &[Cell]) -> Result<Self, NoMemory>
        ensures { IfOk result (λ s. s ≡ from_list cells.now) }
    {
        let mut sorted = cells.to_vec(alloc)?;
        sorted.sort()?;
        sorted.dedup();
        Ok(CellSet { cells: sorted })
    }

    /// The set of cells that come in (y,x) order already, each once. It takes no memory.
    pub fn from_rising(cells: Vec<Cell>) -> Self
        requires { IsRising cells.items }
        ensures { result ≡ from_list cells.items }
    {
        CellSet { cells }
    }

    /// An equal set.
    pub fn copy(&self) -> Result<Self, NoMemory>
        ensures { IfOk result (λ s. s ≡ self.now) }
    {
        let cells = self.cells.clone()?;
        Ok(CellSet { cells })
    }

    /// The cells in (y,x) order, each once. It takes no memory.
    pub fn cells(&self) -> &[Cell]
        ensures order { result.now ≡ in_order self.now }
        ensures rising { IsRising result.now }
    {
        &self.cells
    }

    /// How many cells it has.
    pub fn len(&self) -> usize
        ensures { result ≡ length (in_order self.now) }
    {
        self.cells().len()
    }

    /// Whether it has no cell.
    pub fn is_empty(&self) -> bool
        ensures { IsTrue result ↔ (self.now ≡ empty) }
    {
        self.cells().is_empty()
    }

    /// Whether the cell is in the set.
    pub fn contains(&self, cell: Cell) -> bool
        ensures { result ≡ alive self.now cell.x cell.y }
    {
        self.cells().binary_search(&cell).is_ok()
    }

    /// The cell at a place of the (y,x) order, counted from 0.
    pub fn get(&self, place: usize) -> Option<Cell>
        ensures { result ≡ slice_get (in_order self.now) place }
    {
        self.cells().get(place).copied()
    }

    /// Adds the cell; true exactly where it was not there. A cell that is there needs no memory.
    pub fn insert(&mut self, cell: Cell) -> Result<bool, NoMemory>
        ensures added { OnOk result (alive self.new ≡ union (alive self.old) (listed (cell ∷ []))) }
        ensures was_new { IfOk result (λ new. new ≡ not (alive self.old cell.x cell.y)) }
        ensures there { alive self.old cell.x cell.y ≡ true → result ≡ Ok false }
        ensures kept { OnErr result (self.new ≡ self.old) }
    {
        match self.cells.binary_search(&cell) {
            Ok(_) => Ok(false),
            Err(place) => {
                self.cells.insert(place, cell)?;
                Ok(true)
            }
        }
    }

    /// The cells of either set, by one merge.
    pub fn union(&self, other: &CellSet) -> Result<Self, NoMemory>
        ensures { IfOk result (λ s. alive s ≡ union (alive self.now) (alive other.now)) }
    {
        let alloc = self.cells.allocator().clone()?;
        let cells = merged(alloc, self.cells(), other.cells())?;
        Ok(CellSet { cells })
    }

    /// Each cell moved right by dx and down by dy.
    pub fn shift(&self, dx: i64, dy: i64) -> Result<Self, NoMemory>
        requires { CanMove dx dy (alive self.now) }
        ensures { IfOk result (λ s. alive s ≡ shift dx dy (alive self.now)) }
    {
        let mut cells = Vec::new(self.cells.allocator().clone()?);
        push_moved(&mut cells, self.cells(), dx, dy)?;
        Ok(CellSet { cells })
    }

    /// The least box that holds all cells; None exactly where there are none.
    pub fn bounds(&self) -> Option<Bounds>
        ensures some { IfSome result (λ box. IsLeastBox box (alive self.now)) }
        ensures none { IfNone result (self.now ≡ empty) }
    {
        bounds_of(self.cells())
    }

    /// Whether both sets have the same cells.
    pub fn equal(&self, other: &CellSet) -> bool
        ensures { IsTrue result ↔ (self.now ≡ other.now) }
    {
        self == other
    }

    /// The first cell, in (y,x) order, in just one of the two sets; None exactly where they are equal.
    pub fn first_difference(&self, other: &CellSet) -> Option<Cell>
        ensures some { IfSome result (λ c. IsFirstDifference c (alive self.now) (alive other.now)) }
        ensures none { IfNone result (self.now ≡ other.now) }
    {
        first_difference_of(self.cells(), other.cells())
    }

    /// The cells of the row dy below the cell's own that are at most two columns from it, in order. It takes no memory.
    pub fn close_in_row(&self, it: Cell, dy: i64) -> &[Cell]
        ensures { result.now ≡ filter (is_close_in_row it.x (it.y +ℤ dy)) (in_order self.now) }
    {
        close_in_row(self.cells(), it, dy)
    }

    /// Whether a cell of the set is at distance 2 or less from this one.
    pub fn has_close(&self, it: Cell) -> bool
        ensures { IsTrue result ↔ Close (alive self.now) it.x it.y }
    {
        has_close(self.cells(), it)
    }

    /// Whether no cell of the one set is at distance 2 or less from a cell of the other.
    pub fn apart(&self, other: &CellSet) -> bool
        ensures { IsTrue result ↔ Apart (alive self.now) (alive other.now) }
    {
        are_apart(self.cells(), other.cells())
    }
}
