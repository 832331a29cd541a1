//! Names with a number.

ghost use Rattle.std.specs.Prelude.{◌≡◌, ◌++◌, IfOk};
ghost use Rattle.std.specs.Fmt.{decimal};

use book_parts::Name;
use life_cells::NoMemory;
use std::alloc::Global;

/// The name that is a letter and a number.
pub(crate) fn numbered(alloc: Global, letter: &str, number: u32) -> Result<Name, NoMemory>
    ensures { IfOk result (λ name. name ≡ letter.now ++ decimal number) }
{
    let text = format!(in alloc; "{letter}{number}")?;
    Name::from_text(alloc, &text)
}
