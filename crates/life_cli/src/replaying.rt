//! The command `replay`.

ghost use Rattle.std.specs.Prelude.{◌≡◌, ◌≢◌, ◌+◌, ◌≤◌, ◌^◌, IfOk, OnOk};
ghost use Rattle.life_plane.specs.Plane.{run};
ghost use Rattle.life_cells.specs.Cells.{alive};
ghost use Rattle.life_cells.specs.Boxes.{IsInRange};
ghost use Rattle.life_io.specs.Counts.{IsLaterCount, Rose};
ghost use Rattle.life_io.specs.Texts.{Holds};
ghost use Rattle.life_rle.specs.Text.{Means};
ghost use Rattle.life_rle.specs.Written.{IsRleText};
ghost use Rattle.life_cli.specs.Stages.{EndWith};
ghost use Rattle.life_cli.specs.Replayed.{replay};

use crate::inputs::fetch_pattern;
use crate::status::{Status, Which};
use crate::writing::text_of_cells;
use life_cells::{CellSet, NoMemory};
use life_io::Depot;
use life_steps::Steps;
use life_tiles::Tiles;
use std::alloc::Global;
use std::sync::ledger::Ledger;

/// Runs a pattern for some generations; where nothing changes any more it stops sooner.
fn run_tiles<L: Ledger>(
    tiles: &mut Tiles,
    generations: u32,
    steps: &mut Steps<L>,
) -> Result<(), NoMemory>
    requires { IsInRange (2 ^ 40) (alive tiles.old.cells) }
    ensures run { OnOk result (alive tiles.new.cells ≡ run generations (alive tiles.old.cells)) }
    ensures least { steps.old ≤ steps.new }
    ensures most { steps.new ≤ steps.old + generations }
{
    for _generation in 0..generations {
        if !tiles.step(steps)? {
            return Ok(());
        }
    }
    Ok(())
}

/// A later generation of a pattern.
fn generation<L: Ledger>(
    alloc: Global,
    cells: &CellSet,
    generations: u32,
    steps: &mut Steps<L>,
) -> Result<CellSet, NoMemory>
    requires { IsInRange (2 ^ 40) (alive cells.now) }
    ensures run { IfOk result (λ later. alive later ≡ run generations (alive cells.now)) }
    ensures range { IfOk result (λ later. IsInRange (2 ^ 58) (alive later)) }
    ensures least { steps.old ≤ steps.new }
    ensures most { steps.new ≤ steps.old + generations }
{
    let mut tiles = Tiles::from_cells(alloc, cells)?;
    run_tiles(&mut tiles, generations, steps)?;
    tiles.to_cells()
}

/// The text of a later generation of a pattern.
fn text_of_generation<L: Ledger>(
    alloc: Global,
    cells: &CellSet,
    generations: u32,
    steps: &mut Steps<L>,
) -> Result<Vec<u8>, NoMemory>
    requires { IsInRange (2 ^ 40) (alive cells.now) }
    ensures text { IfOk result (λ bytes. IsRleText (run generations (alive cells.now)) None bytes.items) }
    ensures means { IfOk result (λ bytes. Means bytes.items (run generations (alive cells.now))) }
    ensures least { steps.old ≤ steps.new }
    ensures most { steps.new ≤ steps.old + generations }
{
    let later = generation(alloc, cells, generations, steps)?;
    text_of_cells(alloc, later)
}

/// The text that answers `replay` for the text of this name.
pub(crate) fn replay<D: Depot, L: Ledger>(
    alloc: Global,
    name: &str,
    generations: u32,
    depot: &mut D,
    steps: &mut Steps<L>,
) -> Result<Vec<u8>, Status>
    ensures ends { EndWith (replay (D.texts depot.old) name.now generations) (Rose (D.faults depot.old) (D.faults depot.new)) steps.old steps.new result }
    ensures steps { steps.old ≤ steps.new }
    ensures texts_stay { D.texts depot.new ≡ D.texts depot.old }
    ensures count { IsLaterCount (D.faults depot.old) (D.faults depot.new) }
    ensures no_fault { result ≢ Err Status.ReadFault → D.faults depot.new ≡ D.faults depot.old }
    ensures quiet_stays { D.quiet depot.old → D.quiet depot.new }
    ensures quiet_serves { D.quiet depot.old → Holds (D.texts depot.old) name.now → result ≢ Err Status.ReadFault }
{
    let pattern = fetch_pattern(alloc, depot, name, Which::Pattern)?;
    let text = text_of_generation(alloc, &pattern.cells, generations, steps)?;
    Ok(text)
}
