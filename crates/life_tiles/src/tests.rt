//! Patterns that evolve, and what is counted.

ghost use Rattle.std.specs.Prelude.{◌≡◌, ◌<◌, ◌^◌, IfOk};
ghost use Rattle.life_cells.specs.Boxes.{IsInRange};
ghost use Rattle.life_cells.specs.Cells.{alive};

use crate::{Tiles, first_change};
use life_cells::{Bounds, Cell, CellSet, NoMemory};
use life_steps::Steps;
use std::alloc::Global;
use std::marker::Brand;
use std::process::Abort;
use std::sync::ledger::{Blank, Ledger};
use std::test::Fail;

/// Whether one step changes a pattern, and its cells and box behind it.
#[derive(Debug, Drop)]
struct Stepped {
    changed: bool,
    cells: CellSet,
    bounds: Option<Bounds>,
}

fn step_once<L: Ledger>(alloc: Global, cells: &CellSet, blank: Blank) -> Result<Stepped, NoMemory>
    requires cells { IsInRange (2 ^ 61) (alive cells.now) }
    requires name { blank.name ≡ L.name }
    requires parts { blank.parts ≡ L.parts }
    requires some { 0 < blank.parts }
{
    let mut steps = Steps::<L>::new(blank);
    let mut tiles = Tiles::from_cells(alloc, cells)?;
    let changed = tiles.step(&mut steps)?;
    Ok(Stepped {
        changed,
        cells: tiles.to_cells()?,
        bounds: tiles.bounds(),
    })
}

/// The first cell of a pattern that changes.
fn change_of<L: Ledger>(
    alloc: Global,
    cells: &CellSet,
    blank: Blank,
) -> Result<Option<Cell>, NoMemory>
    requires cells { IsInRange (2 ^ 61) (alive cells.now) }
    requires name { blank.name ≡ L.name }
    requires parts { blank.parts ≡ L.parts }
    requires some { 0 < blank.parts }
{
    let mut steps = Steps::<L>::new(blank);
    first_change(alloc, cells, &mut steps)
}

/// These cells, none of them far out.
fn cells_at(rt: &impl Abort, alloc: Global, places: &[(i64, i64)]) -> Result<CellSet, NoMemory>
    ensures { IfOk result (λ s. IsInRange (2 ^ 61) (alive s)) }
{
    let mut cells = Vec::new(alloc);
    for (x, y) in places {
        cells.push(Cell::new(*x, *y))?;
    }
    let set = CellSet::from_cells(alloc, &cells)?;
    let bounds = set.bounds().expect(rt, "some cell");
    assert!(rt; -100 <= bounds.left);
    assert!(rt; -100 <= bounds.top);
    assert!(rt; bounds.right <= 100);
    assert!(rt; bounds.bottom <= 100);
    Ok(set)
}

#[test]
fn patterns_evolve(rt: HostRuntime) -> Result<(), Fail> {
    let line = cells_at(&rt, rt.alloc(), &[(0, 0), (1, 0), (2, 0)])?;
    let turned = [Cell::new(1, -1), Cell::new(1, 0), Cell::new(1, 1)];
    let blinker = step_once::<Brand>(rt.alloc(), &line, Blank::new(1))?;
    assert!(rt; blinker.changed);
    assert_eq!(rt; blinker.cells.cells(), turned.as_slice());
    assert_eq!(rt;
        blinker.bounds.map(|b| (b.left, b.top, b.right, b.bottom)),
        Some((1, -1, 1, 1))
    );
    Ok(())
}

#[test]
fn still_lifes_stay(rt: HostRuntime) -> Result<(), Fail> {
    let square = cells_at(&rt, rt.alloc(), &[(0, 0), (1, 0), (0, 1), (1, 1)])?;
    let block = step_once::<Brand>(rt.alloc(), &square, Blank::new(1))?;
    assert!(rt; !block.changed);
    assert_eq!(rt; block.cells.len(), 4);
    assert_eq!(rt;
        block.bounds.map(|b| (b.left, b.top, b.right, b.bottom)),
        Some((0, 0, 1, 1))
    );
    Ok(())
}

#[test]
fn the_first_change_is_told(rt: HostRuntime) -> Result<(), Fail> {
    let line = cells_at(&rt, rt.alloc(), &[(0, 0), (1, 0), (2, 0)])?;
    let change = change_of::<Brand>(rt.alloc(), &line, Blank::new(1))?;
    assert_eq!(rt; change, Some(Cell::new(1, -1)));
    let square = cells_at(&rt, rt.alloc(), &[(0, 0), (1, 0), (0, 1), (1, 1)])?;
    let still = change_of::<Brand>(rt.alloc(), &square, Blank::new(1))?;
    assert_eq!(rt; still, None);
    Ok(())
}
