//! The text of a pattern.

ghost use Rattle.std.specs.Prelude.{◌≡◌, ◌^◌, IfOk, IfErr, Some, None};
ghost use Rattle.life_cells.specs.Cells.{alive};
ghost use Rattle.life_cells.specs.Boxes.{IsInRange};
ghost use Rattle.life_rle.specs.Text.{Means};
ghost use Rattle.life_rle.specs.Written.{IsRleText};
ghost use Rattle.life_cli.specs.Compiled.{generations};

use life_cells::{CellSet, NoMemory};
use life_rle::{Pattern, write_rle};
use std::alloc::Global;
use stream_time::Built;

/// The text of a pattern, with its number of generations in a note.
pub(crate) fn text_of_built(alloc: Global, built: Built) -> Result<Vec<u8>, NoMemory>
    requires { IsInRange (2 ^ 58) (alive built.pattern) }
    ensures text { IfOk result (λ bytes. IsRleText (alive built.pattern) (Some (generations built.n)) bytes.items) }
    ensures means { IfOk result (λ bytes. Means bytes.items (alive built.pattern)) }
{
    let n = built.n;
    let Ok(note) = format!(in alloc; "generations {n}") else {
        return Err(NoMemory);
    };
    let pattern = Pattern {
        cells: built.pattern,
    };
    let mut text = Vec::new(alloc);
    write_rle(alloc, &pattern, Some(note.as_str()), &mut text)?;
    Ok(text)
}

/// The text of cells, without a note.
pub(crate) fn text_of_cells(alloc: Global, cells: CellSet) -> Result<Vec<u8>, NoMemory>
    requires { IsInRange (2 ^ 58) (alive cells) }
    ensures text { IfOk result (λ bytes. IsRleText (alive cells) None bytes.items) }
    ensures means { IfOk result (λ bytes. Means bytes.items (alive cells)) }
{
    let pattern = Pattern { cells };
    let mut text = Vec::new(alloc);
    write_rle(alloc, &pattern, None, &mut text)?;
    Ok(text)
}
