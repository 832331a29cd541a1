//! A pattern that evolves.

ghost use Rattle.std.specs.Prelude.{◌≡◌, ◌≢◌, ◌+◌, ◌*◌, ◌≤◌, ◌^◌, IsOk, IfOk, OnOk, OnErr, IfSome, IfNone};
ghost use Rattle.std.specs.Bool.{MatchBool};
ghost use Rattle.life_plane.specs.Plane.{step};
ghost use Rattle.life_cells.specs.Cells.{alive, empty};
ghost use Rattle.life_cells.specs.Boxes.{IsInRange, IsLeastBox};
ghost use Rattle.life_tiles.specs.Tiled.{tile_count};

use crate::advancing::advance;
use crate::bounding::bounds_of;
use crate::counting::live_count;
use crate::filling::tiles_with;
use crate::growing::make_all_neighbours;
use crate::reading::live_cells;
use crate::stepping::fill_next;
use crate::tile_map::TileMap;
use life_cells::{Bounds, CellSet, NoMemory};
use life_steps::Steps;
use std::alloc::Global;
use std::marker::Model;
use std::sync::ledger::Ledger;

/// A finite set of cells that evolves by Conway's rule, seen as that set beside the number of tiles for which there is memory.
#[derive(Drop)]
pub struct Tiles {
    alloc: Global,
    tiles: TileMap,
}

impl Model for Tiles {
    ghost use Rattle.life_tiles.specs.Tiled.{TiledCells, coded_tiled_cells};
    ghost use Rattle.life_tiles.specs.Tiling.{set_of, IsTiled};
    ghost use Rattle.life_tiles.specs.Stepping.{IsSettled};

    ghost Value = { TiledCells };

    ghost coded = { coded_tiled_cells };

    ghost view = { λ t. record { cells = set_of t.tiles; spare = t.tiles.room } };

    ghost invariant = { λ t. IsTiled t.tiles × IsSettled t.tiles };
}

impl Tiles {
    /// A pattern that begins with these cells.
    pub fn from_cells(alloc: Global, cells: &CellSet) -> Result<Tiles, NoMemory>
        requires { IsInRange (2 ^ 61) (alive cells.now) }
        ensures { IfOk result (λ tiles. tiles.cells ≡ cells.now) }
    {
        let tiles = tiles_with(alloc, cells.cells())?;
        Ok(Tiles { alloc, tiles })
    }

    /// Takes memory for so many tiles, if there is less: the spare tiles. No cell changes.
    pub fn reserve(&mut self, tiles: usize) -> Result<(), NoMemory>
        ensures cells { self.new.cells ≡ self.old.cells }
        ensures spare { OnOk result (tiles ≤ self.new.spare) }
        ensures kept { self.old.spare ≤ self.new.spare }
        ensures succeeds { tiles ≤ self.old.spare → IsOk result }
    {
        self.tiles.grow(tiles)
    }

    /// The number of tiles, aligned squares of 64 by 64 cells, that have a live cell.
    pub fn tile_count(&self) -> usize
        ensures { result ≡ tile_count self.now.cells }
    {
        live_count(&self.tiles)
    }

    /// Evolves the pattern by one generation, which is counted. The answer is whether a cell changed. It takes no memory where there
    /// are nine spare tiles for each tile with a live cell.
    pub fn step<L: Ledger>(&mut self, steps: &mut Steps<L>) -> Result<bool, NoMemory>
        requires { IsInRange (2 ^ 61) (alive self.old.cells) }
        ensures next { OnOk result (alive self.new.cells ≡ step (alive self.old.cells)) }
        ensures changed { IfOk result (λ changed. MatchBool changed (self.new.cells ≢ self.old.cells) (self.new.cells ≡ self.old.cells)) }
        ensures counted { OnOk result (steps.new ≡ steps.old + 1) }
        ensures same { OnErr result (self.new.cells ≡ self.old.cells) }
        ensures least { steps.old ≤ steps.new }
        ensures most { steps.new ≤ steps.old + 1 }
        ensures spare { self.old.spare ≤ self.new.spare }
        ensures succeeds { 9 * tile_count self.old.cells ≤ self.old.spare → IsOk result }
    {
        make_all_neighbours(&mut self.tiles)?;
        steps.tick();
        fill_next(&mut self.tiles);
        Ok(advance(&mut self.tiles))
    }

    /// The cells now.
    pub fn to_cells(&self) -> Result<CellSet, NoMemory>
        ensures { IfOk result (λ cells. cells ≡ self.now.cells) }
    {
        let cells = live_cells(self.alloc, &self.tiles)?;
        let set = CellSet::from_cells(self.alloc, &cells)?;
        Ok(set)
    }

    /// The least box about the cells; none where there is no cell. It takes no memory.
    pub fn bounds(&self) -> Option<Bounds>
        ensures some { IfSome result (λ bounds. IsLeastBox bounds (alive self.now.cells)) }
        ensures none { IfNone result (self.now.cells ≡ empty) }
    {
        bounds_of(&self.tiles)
    }
}
