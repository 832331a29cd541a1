//! The kinds that a turn names by their numbers.

ghost use Rattle.std.specs.Prelude.{◌≡◌, length};
ghost use Rattle.life_plane.specs.Plane.{nothing};
ghost use Rattle.life_cells.specs.Cells.{alive};
ghost use Rattle.book_parts.specs.Kinds.{kind_plane, next_plane};
ghost use Rattle.book_parts.specs.Proper.{IsKindNumber, IsProperEnd};

use book_parts::{RawKind, TurnEnd};
use life_cells::CellSet;

/// The cells of the kind with this number, counted from 1. It takes no memory.
pub fn kind_cells(kinds: &[RawKind], number: usize) -> &CellSet
    requires { IsKindNumber (length kinds.now) number }
    ensures { alive result.now ≡ kind_plane kinds.now number }
{
    &kinds[number - 1].cells
}

/// The cells of the kind that a turn leads to; none where it closes.
pub(crate) fn next_cells<'a>(kinds: &'a [RawKind], end: TurnEnd, none: &'a CellSet) -> &'a CellSet
    requires end { IsProperEnd (length kinds.now) end }
    requires none { alive none.now ≡ nothing }
    ensures { alive result.now ≡ next_plane kinds.now end }
{
    match end {
        TurnEnd::Close => none,
        TurnEnd::Move { kind, .. } => kind_cells(kinds, kind),
        TurnEnd::Emit { kind, .. } => kind_cells(kinds, kind),
    }
}
