//! Kinds of elbow that were checked.

ghost use Rattle.std.specs.Prelude.{◌≡◌, ◌+◌, ◌≤◌, IfOk, IfErr, length};
ghost use Rattle.std.specs.List.{AllByRecursion};
ghost use Rattle.book_parts.specs.Limits.{AreProper};
ghost use Rattle.book_parts.specs.Proper.{IsProperKind};
ghost use Rattle.recipe_turn.specs.Checked.{AreChecked, AreValid};
ghost use Rattle.recipe_turn.specs.Refusals.{KindsAreRefused};

use crate::kinds::test_kind;
use crate::refusal::KindsError;
use book_parts::{RawKind, Settings};
use life_steps::Steps;
use std::alloc::Global;
use std::marker::Model;
use std::snapshot::Snapshot;
use std::sync::ledger::Ledger;

/// Kinds of elbow that are proper and valid: still lifes in their place. Contracts see beside them the settings with which they were checked.
#[derive(Drop)]
pub struct Kinds {
    raw: Vec<RawKind>,
    settings: Snapshot<Settings>,
}

impl Model for Kinds {
    ghost use Rattle.recipe_turn.specs.Checked.{CheckedKinds, AreChecked, coded_kinds};

    ghost Value = { CheckedKinds };

    ghost coded = { coded_kinds };

    ghost view = { λ k. record { raw = k.raw.items; settings = k.settings.value } };

    ghost invariant = { λ k. AreChecked (record { raw = k.raw.items; settings = k.settings.value }) };
}

impl Kinds {
    /// The kinds. It takes no memory.
    pub fn raw(&self) -> &[RawKind]
        ensures raw { result.now ≡ self.now.raw }
        ensures checked { AreChecked self.now }
    {
        &self.raw
    }
}

/// The kinds, checked one after the other; they are handed back where one is not valid. At most one generation a kind is counted.
pub fn check_kinds<L: Ledger>(
    alloc: Global,
    settings: &Settings,
    kinds: Vec<RawKind>,
    steps: &mut Steps<L>,
) -> Result<Kinds, (Vec<RawKind>, KindsError)>
    requires settings { AreProper settings.now }
    requires kinds { AllByRecursion IsProperKind kinds.items }
    ensures kinds { IfOk result (λ checked. checked.raw ≡ kinds.items) }
    ensures settings { IfOk result (λ checked. checked.settings ≡ settings.now) }
    ensures back { IfErr result (λ e. e.0.items ≡ kinds.items) }
    ensures refusal { IfErr result (λ e. KindsAreRefused settings.now kinds.items e.1) }
    ensures least { steps.old ≤ steps.new }
    ensures most { steps.new ≤ steps.old + length kinds.items }
{
    match test_kinds(alloc, settings, &kinds, steps) {
        Ok(()) => Ok(Kinds {
            raw: kinds,
            settings: Snapshot::of(settings),
        }),
        Err(refusal) => Err((kinds, refusal)),
    }
}

/// Refuses kinds that are not all valid.
fn test_kinds<L: Ledger>(
    alloc: Global,
    settings: &Settings,
    kinds: &[RawKind],
    steps: &mut Steps<L>,
) -> Result<(), KindsError>
    requires settings { AreProper settings.now }
    requires kinds { AllByRecursion IsProperKind kinds.now }
    ensures valid { IfOk result (λ _. AreValid settings.now kinds.now) }
    ensures refusal { IfErr result (λ e. KindsAreRefused settings.now kinds.now e) }
    ensures least { steps.old ≤ steps.new }
    ensures most { steps.new ≤ steps.old + length kinds.now }
{
    for (place, kind) in kinds.iter().enumerate() {
        test_kind(alloc, settings, place + 1, &kind.cells, steps)?;
    }
    Ok(())
}
