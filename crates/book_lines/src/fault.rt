//! Why a line has no form of a book's.

ghost use Rattle.std.specs.Prelude.{◌≡◌};
ghost use Rattle.book_lines.specs.declared.fault.LineError.TheVariants.{Fault, Memory};

use life_cells::NoMemory;
use std::alloc::AllocFailed;

/// What is wrong in the form of a line.
#[derive(Clone, Copy, Debug, PartialEq, Eq)]
pub enum LineFault {
    /// The first line is no `scbook 1`.
    Version,
    /// The line's first word is unknown.
    Word,
    /// Items are missing, too many, or not where they belong.
    Form,
    /// A number's place holds something else.
    Number,
    /// A body is not read.
    Body,
    /// A body has no live cell.
    Empty,
}

/// Why a line is not read.
#[derive(Clone, Copy, Debug, PartialEq, Eq)]
pub enum LineError {
    /// Something is wrong in its form.
    Fault(LineFault),
    /// No memory.
    Memory,
}

impl From<LineFault> for LineError {
    ghost from_gives = { λ fault e. e ≡ Fault fault };

    fn from(fault: LineFault) -> Self {
        LineError::Fault(fault)
    }
}

impl From<NoMemory> for LineError {
    ghost from_gives = { λ _ e. e ≡ Memory };

    fn from(_: NoMemory) -> Self {
        LineError::Memory
    }
}

impl<T: Drop> From<AllocFailed<T>> for LineError {
    ghost from_gives = { λ _ e. e ≡ Memory };

    fn from(_: AllocFailed<T>) -> Self {
        LineError::Memory
    }
}
