//! What is built, kept so that clearance is told without a look at each cell.

ghost use Rattle.std.specs.Prelude.{◌≡◌, ◌↔◌, ◌^◌, ◌≤ℤ◌, IsTrue, IfOk};
ghost use Rattle.life_plane.specs.Plane.{union};
ghost use Rattle.life_plane.specs.Strips.{Each};
ghost use Rattle.life_cells.specs.Boxes.{IsInRange, IsCellInRange, IsBoxInRange};
ghost use Rattle.life_cells.specs.Cells.{alive, empty};
ghost use Rattle.book_parts.specs.Limits.{AreProper};
ghost use Rattle.lane_clear.specs.Bare.{HasCells, grown};
ghost use Rattle.lane_clear.specs.Clear.{IsOffBounds, IsAside, IsClear};
ghost use Rattle.lane_clear.specs.Frames.{moved_frame, farthest, IsFrameInRange};

use crate::barriers::add_cells;
use crate::clearance::are_beyond;
use crate::moved::moved_frame;
use crate::rows::is_bare;
use book_parts::Settings;
use life_cells::{Bounds, Cell, CellSet, NoMemory};
use recipe_hit::HitFrame;
use std::alloc::Global;
use std::collections::HashMap;
use std::marker::Model;

/// How near to the bounds of a hit nothing may be built.
const NEAR: i64 = 2;

/// How far the u of what is built beside a flight's lane is at least past that of the hit's start.
const AHEAD: i64 = 10;

/// A finite set of cells that are built, in order, and for each lane the least u of those beside it.
#[derive(Drop)]
pub struct BuiltSet {
    cells: CellSet,
    barriers: HashMap<i64, i64>,
}

impl Model for BuiltSet {
    ghost use Rattle.life_cells.specs.Cells.{Cells, coded_cells, alive};
    ghost use Rattle.life_cells.specs.Boxes.{IsInRange};
    ghost use Rattle.lane_clear.specs.Frames.{farthest};
    ghost use Rattle.lane_clear.specs.Barriers.{AreBarriers};

    ghost Value = { Cells };

    ghost coded = { coded_cells };

    ghost view = { λ s. s.cells };

    ghost invariant = { λ s. IsInRange farthest (alive s.cells) × AreBarriers (alive s.cells) s.barriers };
}

impl BuiltSet {
    /// Nothing is built. It takes no memory.
    pub fn empty(alloc: Global) -> Self
        ensures { result ≡ empty }
    {
        BuiltSet {
            cells: CellSet::empty(alloc),
            barriers: HashMap::new(alloc),
        }
    }

    /// These cells are built.
    pub fn of(alloc: Global, cells: &CellSet) -> Result<Self, NoMemory>
        requires { IsInRange farthest (alive cells.now) }
        ensures { IfOk result (λ built. built ≡ cells.now) }
    {
        BuiltSet::empty(alloc).with(cells)
    }

    /// What is built, and an island more.
    pub fn with(self, island: &CellSet) -> Result<Self, NoMemory>
        requires { IsInRange farthest (alive island.now) }
        ensures { IfOk result (λ built. alive built ≡ union (alive self) (alive island.now)) }
    {
        let cells = self.cells.union(island)?;
        let mut barriers = self.barriers;
        add_cells(&mut barriers, island.cells())?;
        Ok(BuiltSet { cells, barriers })
    }

    /// The cells that are built. It takes no memory.
    pub fn cells(&self) -> &CellSet
        ensures same { result.now ≡ self.now }
        ensures range { IsInRange farthest (alive self.now) }
    {
        &self.cells
    }

    /// Whether nothing that is built is within distance 2 of these bounds. It takes no memory.
    pub fn is_off(&self, bounds: Bounds) -> bool
        requires { IsBoxInRange (2 ^ 54) bounds }
        ensures { IsTrue result ↔ Each (IsOffBounds bounds) (alive self.now) }
    {
        if has_cells(bounds) {
            is_bare(self.cells.cells(), grown(bounds))
        } else {
            true
        }
    }

    /// Whether all that is built is off the lane of a hit's glider, or ahead of where the hit begins. It takes no memory.
    pub fn is_aside(&self, frame: HitFrame) -> bool
        requires { IsFrameInRange (2 ^ 54) frame }
        ensures { IsTrue result ↔ Each (IsAside frame) (alive self.now) }
    {
        match self.barriers.get(&frame.lane) {
            Some(u) => *u >= frame.lane + 2 * frame.start + AHEAD,
            None => true,
        }
    }

    /// Whether a hit of this frame, with the hand at a place, is clear of what is built, as `clear_hit` says it (docs/DEFINITIONS.md,
    /// "Clear"). It takes no memory.
    pub fn is_clear(&self, settings: &Settings, frame: HitFrame, at: Cell) -> bool
        requires settings { AreProper settings.now }
        requires frame { IsFrameInRange farthest frame }
        requires at { IsCellInRange farthest at }
        ensures { IsTrue result ↔ IsClear settings.now (alive self.now) (moved_frame at frame) }
    {
        let there = moved_frame(frame, at);
        if !are_beyond(settings, there.bounds) {
            return false;
        }
        self.is_aside(there) && self.is_off(there.bounds)
    }
}

/// Whether bounds have a cell: their left isn't past their right, nor their top past their bottom.
fn has_cells(bounds: Bounds) -> bool
    ensures { IsTrue result ↔ HasCells bounds }
{
    let columns = bounds.left <= bounds.right;
    let rows = bounds.top <= bounds.bottom;
    columns & rows
}

/// Bounds with what is near to them.
fn grown(bounds: Bounds) -> Bounds
    requires { IsBoxInRange (2 ^ 54) bounds }
    ensures { result ≡ grown bounds }
{
    Bounds {
        left: bounds.left - NEAR,
        top: bounds.top - NEAR,
        right: bounds.right + NEAR,
        bottom: bounds.bottom + NEAR,
    }
}
