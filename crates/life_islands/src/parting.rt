//! A set of cells as islands.

ghost use Rattle.std.specs.Prelude.{◌↔◌, ◌^◌, IsTrue, IfOk, OnOk};
ghost use Rattle.life_cells.specs.Boxes.{IsInRange};
ghost use Rattle.life_cells.specs.Cells.{alive};
ghost use Rattle.life_cells.specs.Listed.{listed};
ghost use Rattle.life_islands.specs.Islands.{AreIslands, IsOneIsland};
ghost use Rattle.life_islands.specs.Joined.{Lives};
ghost use Rattle.life_islands.specs.Ranks.{AreRanked, AddsIsland};

use crate::island::Island;
use crate::rank::Rank;
use crate::search::{add_all, joined_with};
use indexmap::IndexSet;
use life_cells::{Cell, CellSet, NoMemory};
use std::alloc::Global;
use std::collections::BTreeMap;

/// The islands of a set of cells: the parts whose cells are joined by links of distance at most 2. The island with the greatest
/// u = x - y among its cells comes first; of islands with the same greatest u the one whose first cell in (y,x) order comes first.
///
/// # Errors
///
/// [`NoMemory`] where there was no memory for the islands.
pub fn islands(alloc: Global, cells: &CellSet) -> Result<Vec<Island>, NoMemory>
    requires { IsInRange (2 ^ 60) (alive cells.now) }
    ensures { IfOk result (λ islands. AreIslands (alive cells.now) islands.items) }
{
    let ranked = ranked_islands(alloc, cells)?;
    let mut islands = Vec::new(alloc);
    for (rank, cells) in ranked {
        let first = rank.first;
        islands.push(Island { cells, first })?;
    }
    Ok(islands)
}

/// Whether a set of cells is one island. A set with no cell is none.
///
/// # Errors
///
/// [`NoMemory`] where there was no memory for the search.
pub fn is_one_island(alloc: Global, cells: &CellSet) -> Result<bool, NoMemory>
    ensures { IfOk result (λ one. IsTrue one ↔ IsOneIsland (alive cells.now)) }
{
    let Some(first) = cells.get(0) else {
        return Ok(false);
    };
    let found = joined_with(alloc, cells, first)?;
    let island = CellSet::from_cells(alloc, found.as_slice())?;
    Ok(island.equal(cells))
}

/// The islands of the set, each under its rank.
fn ranked_islands(alloc: Global, cells: &CellSet) -> Result<BTreeMap<Rank, CellSet>, NoMemory>
    requires { IsInRange (2 ^ 60) (alive cells.now) }
    ensures { IfOk result (λ ranked. AreRanked (alive cells.now) (alive cells.now) ranked.entries) }
{
    let mut ranked = BTreeMap::new(alloc);
    let mut seen = IndexSet::new(alloc);
    for cell in cells.cells() {
        if !seen.contains(cell) {
            add_island(alloc, cells, *cell, &mut ranked, &mut seen)?;
        }
    }
    Ok(ranked)
}

/// Adds the island that has this cell, and notes that its cells were seen.
fn add_island(
    alloc: Global,
    cells: &CellSet,
    start: Cell,
    ranked: &mut BTreeMap<Rank, CellSet>,
    seen: &mut IndexSet<Cell>,
) -> Result<(), NoMemory>
    requires range { IsInRange (2 ^ 60) (alive cells.now) }
    requires lives { Lives (alive cells.now) start }
    requires ranked { AreRanked (alive cells.now) (listed seen.old.keys) ranked.old.entries }
    ensures adds { OnOk result (AddsIsland start ranked.old.entries ranked.new.entries) }
    ensures ranked { OnOk result (AreRanked (alive cells.now) (listed seen.new.keys) ranked.new.entries) }
{
    let found = joined_with(alloc, cells, start)?;
    add_all(seen, found.as_slice())?;
    let rank = Rank::of(start, found.as_slice());
    let island = CellSet::from_cells(alloc, found.as_slice())?;
    ranked.insert(rank, island)?;
    Ok(())
}
