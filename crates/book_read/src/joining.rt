//! Whether a statement goes with the lines before it.

ghost use Rattle.std.specs.Prelude.{◌≡◌, ◌↔◌, IsTrue, IsSome, is_some};
ghost use Rattle.std.specs.List.{AllByRecursion};
ghost use Rattle.book_read.specs.Names.{number_of};
ghost use Rattle.book_parts.specs.Proper.{IsNoneOf};
ghost use Rattle.book_lines.specs.Counts.{HasSmallCounts};
ghost use Rattle.book_read.specs.Limited.{IsOver};
ghost use Rattle.book_read.specs.Joining.{IsNew, KnowsKinds, entry_names, kinds_of_end};
ghost use Rattle.book_read.specs.Drafted.{stated_of, IsKept};

use crate::counting::count_outside;
use crate::draft::{Draft, number_of};
use crate::named::is_new_name;
use crate::outside::number_outside;
use book_lines::{NamedEnd, Statement};
use book_parts::RawKind;

/// Whether a statement's setting, or the name of its entry, does not come again.
pub fn is_new(draft: &Draft, statement: &Statement) -> bool
    ensures { IsTrue result ↔ IsNew (stated_of draft.now) statement.now }
{
    match statement {
        Statement::Setting(setting) => draft.numbers(setting.word).is_none(),
        Statement::Hand(_) => draft.hand.is_none(),
        Statement::Elbow(elbow) => is_new_name(&draft.kinds, elbow.name.text()),
        Statement::Start(_) => draft.start.is_none(),
        Statement::Turn(turn) => is_new_entry(draft, turn.name.text()),
        Statement::Salvo(salvo) => is_new_entry(draft, salvo.name.text()),
    }
}

/// Whether each kind that a statement names is known.
pub fn knows_kinds(draft: &Draft, statement: &Statement) -> bool
    ensures { IsTrue result ↔ KnowsKinds (stated_of draft.now) statement.now }
{
    match statement {
        Statement::Start(name) => is_known(&draft.kinds, name.text()),
        Statement::Turn(turn) => {
            is_known(&draft.kinds, turn.kind.text()) && knows_end(&draft.kinds, &turn.end)
        }
        _ => true,
    }
}

/// The first number of a statement outside its limits, or else the first count that passes its limit.
pub fn over(draft: &Draft, statement: &Statement) -> Option<i64>
    requires kept { IsKept draft.now }
    requires small { HasSmallCounts statement.now }
    ensures { IsOver (stated_of draft.now) statement.now result }
{
    let number = number_outside(statement);
    let count = count_outside(draft, statement);
    number.or(count)
}

/// Whether no turn and no salvo has this name.
fn is_new_entry(draft: &Draft, name: &str) -> bool
    ensures { IsTrue result ↔ IsNoneOf (entry_names (stated_of draft.now)) name.now }
{
    is_new_name(&draft.turns, name) && is_new_name(&draft.salvos, name)
}

/// Whether a kind has this name.
fn is_known(kinds: &[RawKind], name: &str) -> bool
    ensures { result ≡ is_some (number_of kinds.now name.now) }
{
    number_of(kinds, name).is_some()
}

/// Whether the kind that a turn leaves, if any, is known.
fn knows_end(kinds: &[RawKind], end: &NamedEnd) -> bool
    ensures { IsTrue result ↔ AllByRecursion (λ name. IsSome (number_of kinds.now name)) (kinds_of_end end.now) }
{
    match end {
        NamedEnd::Close => true,
        NamedEnd::Move { kind, .. } | NamedEnd::Emit { kind, .. } => is_known(kinds, kind.text()),
    }
}
