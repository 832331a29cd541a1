//! The words of a line.

ghost use Rattle.std.specs.Prelude.{◌≡◌, IfOk};
ghost use Rattle.book_lines.specs.Lines.{texts};
ghost use Rattle.text_lines.specs.Blanks.{words};

use life_cells::NoMemory;
use std::alloc::Global;

/// The words of a line, separated by spaces and tabs.
pub fn words_of(alloc: Global, line: &[u8]) -> Result<Vec<&[u8]>, NoMemory>
    ensures { IfOk result (λ found. texts found.items ≡ words line.now) }
{
    let words = line
        .split(|b| *b == b' ' || *b == b'\t')
        .filter(|word| !word.is_empty())
        .collect(alloc)?;
    Ok(words)
}
