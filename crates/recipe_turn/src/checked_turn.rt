//! Turns that were checked.

ghost use Rattle.std.specs.Prelude.{◌≡◌, ◌+◌, ◌≤◌, IfOk, IfErr, length};
ghost use Rattle.book_parts.specs.Limits.{AreProper};
ghost use Rattle.book_parts.specs.Kinds.{kind_plane, next_plane};
ghost use Rattle.book_parts.specs.Proper.{IsProperTurn};
ghost use Rattle.recipe_turn.specs.Checked.{IsChecked, IsOf};
ghost use Rattle.recipe_turn.specs.Refusals.{TurnIsRefused};

use crate::checked_kinds::Kinds;
use crate::named_kinds::{kind_cells, next_cells};
use crate::refusal::TurnRefusal;
use crate::soundness::test_turn;
use book_parts::{RawTurn, Settings};
use life_cells::CellSet;
use life_steps::Steps;
use std::alloc::Global;
use std::marker::Model;
use std::snapshot::Snapshot;
use std::sync::ledger::Ledger;

/// A sound turn. Contracts see beside it the settings and the cells under which it was checked.
#[derive(Drop)]
pub struct CheckedTurn {
    raw: RawTurn,
    settings: Snapshot<Settings>,
    kinds: Snapshot<usize>,
    kind: Snapshot<CellSet>,
    next: Snapshot<CellSet>,
}

impl Model for CheckedTurn {
    ghost use Rattle.recipe_turn.specs.Checked.{Checked, IsChecked, coded_checked};

    ghost Value = { Checked };

    ghost coded = { coded_checked };

    ghost view = { λ t. record { raw = t.raw; settings = t.settings.value; kinds = t.kinds.value; kind = t.kind.value; next = t.next.value } };

    ghost invariant = { λ t. IsChecked (record { raw = t.raw; settings = t.settings.value; kinds = t.kinds.value; kind = t.kind.value; next = t.next.value }) };
}

impl CheckedTurn {
    /// The turn as its book states it. It takes no memory.
    pub fn raw(&self) -> &RawTurn
        ensures raw { result.now ≡ self.now.raw }
        ensures checked { IsChecked self.now }
    {
        &self.raw
    }
}

/// A turn between these kinds, checked by evolving it; it is handed back where it isn't sound. At most its generations are counted.
pub fn check_turn<L: Ledger>(
    alloc: Global,
    settings: &Settings,
    kinds: &Kinds,
    turn: RawTurn,
    steps: &mut Steps<L>,
) -> Result<CheckedTurn, (RawTurn, TurnRefusal)>
    requires settings { AreProper settings.now }
    requires same { kinds.now.settings ≡ settings.now }
    requires turn { IsProperTurn (length kinds.now.raw) turn }
    ensures raw { IfOk result (λ checked. checked.raw ≡ turn) }
    ensures under { IfOk result (λ checked. IsOf settings.now kinds.now.raw checked) }
    ensures checked { IfOk result (λ checked. IsChecked checked) }
    ensures back { IfErr result (λ e. e.0 ≡ turn) }
    ensures refusal { IfErr result (λ e. TurnIsRefused settings.now (kind_plane kinds.now.raw turn.kind) (next_plane kinds.now.raw turn.end) turn e.1) }
    ensures least { steps.old ≤ steps.new }
    ensures most { steps.new ≤ steps.old + turn.n }
{
    let none = CellSet::empty(alloc);
    let kind = kind_cells(kinds.raw(), turn.kind);
    let next = next_cells(kinds.raw(), turn.end, &none);
    match test_turn(alloc, settings, kind, next, &turn, steps) {
        Ok(()) => Ok(CheckedTurn {
            raw: turn,
            settings: Snapshot::of(settings),
            kinds: Snapshot::of(&kinds.raw().len()),
            kind: Snapshot::of(kind),
            next: Snapshot::of(next),
        }),
        Err(refusal) => Err((turn, refusal)),
    }
}
