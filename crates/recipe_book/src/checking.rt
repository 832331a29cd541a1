//! Checking a book.

ghost use Rattle.std.specs.Prelude.{◌≡◌, ◌+◌, ◌≤◌, IfOk, IfErr, length, ℕ};
ghost use Rattle.std.specs.List.{AllByRecursion};
ghost use Rattle.life_cells.specs.Cells.{alive};
ghost use Rattle.life_plane.specs.Plane.{IsStill};
ghost use Rattle.book_parts.specs.Limits.{AreProper};
ghost use Rattle.book_parts.specs.Proper.{IsProperBook, IsProperHand, IsProperKind};
ghost use Rattle.recipe_turn.specs.Checked.{AreValid};
ghost use Rattle.recipe_turn.specs.Checked.{raws};
ghost use Rattle.elbow_graph.specs.States.{HasStates};
ghost use Rattle.recipe_book.specs.Checked.{raw_salvos};
ghost use Rattle.book_parts.specs.declared.limits.TheConstants.{MOST_STATES};
ghost use Rattle.recipe_book.specs.Entries.{AreTheSound, AreTheSoundSalvos};
ghost use Rattle.recipe_book.specs.Verdicts.{AreVerdicts};
ghost use Rattle.recipe_book.specs.Refusals.{BookIsRefused, KindsRefuse, HandRefuses, StatesRefuse, generations, most_hit_generations};

use crate::checked_book::CheckedBook;
use crate::index::index_by_shape;
use crate::refusal::BookRefusal;
use crate::salvos::sound_salvos;
use crate::turns::sound_turns;
use crate::verdict::Verdict;
use book_parts::limits::MOST_STATES;
use book_parts::{RawBook, RawKind, Settings};
use elbow_graph::elbow_states;
use life_cells::{CellSet, NoMemory};
use life_steps::Steps;
use recipe_hit::{Hand, HandRefusal, check_hand};
use recipe_turn::{CheckedTurn, Kinds, KindsError, check_kinds};
use std::alloc::Global;
use std::sync::ledger::Ledger;

/// The kinds, where all are valid.
fn valid_kinds<L: Ledger>(
    alloc: Global,
    settings: &Settings,
    kinds: Vec<RawKind>,
    steps: &mut Steps<L>,
) -> Result<Kinds, BookRefusal>
    requires settings { AreProper settings.now }
    requires kinds { AllByRecursion IsProperKind kinds.items }
    ensures kinds { IfOk result (λ checked. checked.raw ≡ kinds.items) }
    ensures settings { IfOk result (λ checked. checked.settings ≡ settings.now) }
    ensures valid { IfOk result (λ checked. AreValid settings.now kinds.items) }
    ensures err { IfErr result (λ e. KindsRefuse settings.now kinds.items e) }
    ensures least { steps.old ≤ steps.new }
    ensures most { steps.new ≤ steps.old + length kinds.items }
{
    match check_kinds(alloc, settings, kinds, steps) {
        Ok(checked) => Ok(checked),
        Err((_, KindsError::Place { kind, cell })) => Err(BookRefusal::KindPlace { kind, cell }),
        Err((_, KindsError::NotStill { kind, cell })) => Err(BookRefusal::KindNotStill {
            kind,
            cell,
        }),
        Err((_, KindsError::Memory)) => Err(BookRefusal::Memory),
    }
}

/// The hand, where it is still.
fn still_hand<L: Ledger>(
    alloc: Global,
    hand: CellSet,
    steps: &mut Steps<L>,
) -> Result<Hand, BookRefusal>
    requires { IsProperHand (alive hand) }
    ensures same { IfOk result (λ checked. checked ≡ hand) }
    ensures still { IfOk result (λ _. IsStill (alive hand)) }
    ensures err { IfErr result (λ e. HandRefuses hand e) }
    ensures least { steps.old ≤ steps.new }
    ensures most { steps.new ≤ steps.old + 1 }
{
    match check_hand(alloc, hand, steps) {
        Ok(checked) => Ok(checked),
        Err((_, HandRefusal::NotStill { cell })) => Err(BookRefusal::HandNotStill { cell }),
        Err((_, HandRefusal::Memory)) => Err(BookRefusal::Memory),
    }
}

/// Refuses turns that lead the elbow to too many states.
fn check_states(
    alloc: Global,
    turns: &[CheckedTurn],
    start: usize,
    settings: &Settings,
) -> Result<(), BookRefusal>
    requires { AreProper settings.now }
    ensures states { IfOk result (λ _. (count : ℕ) × HasStates (raws turns.now) start settings.now.span MOST_STATES count) }
    ensures err { IfErr result (λ e. StatesRefuse (raws turns.now) start settings.now.span e) }
{
    match elbow_states(alloc, turns, start, settings.span, MOST_STATES) {
        Ok(Some(_)) => Ok(()),
        Ok(None) => Err(BookRefusal::ElbowMany {
            count: MOST_STATES + 1,
        }),
        Err(NoMemory) => Err(BookRefusal::Memory),
    }
}

/// The book with exactly its sound turns and salvos (docs/DEFINITIONS.md, "Sound turn", "Sound salvo"), in book order, and a verdict on each
/// entry: those on the turns, then those on the salvos. Each entry is evolved once, and the kinds and the hand for one generation each; every
/// generation is counted in `steps`.
///
/// # Errors
/// The first that holds, in this order: a kind out of place or not still, the first such kind (`KindPlace`, `KindNotStill`); a hand that
/// isn't still (`HandNotStill`); more than 4,194,304 elbow states (`ElbowMany`). `Memory` for want of memory, at any time.
pub fn check_book<L: Ledger>(
    alloc: Global,
    book: RawBook,
    steps: &mut Steps<L>,
) -> Result<(CheckedBook, Vec<Verdict>), BookRefusal>
    requires { IsProperBook book }
    ensures settings { IfOk result (λ r. r.0.settings ≡ book.settings) }
    ensures kinds { IfOk result (λ r. r.0.kinds ≡ book.kinds) }
    ensures start { IfOk result (λ r. r.0.start ≡ book.start) }
    ensures hand { IfOk result (λ r. r.0.hand ≡ book.hand) }
    ensures turns { IfOk result (λ r. AreTheSound book.settings book.kinds book.turns (raws r.0.turns)) }
    ensures salvos { IfOk result (λ r. AreTheSoundSalvos (alive book.hand) book.salvos (raw_salvos r.0.salvos)) }
    ensures verdicts { IfOk result (λ r. AreVerdicts book.settings book.kinds (alive book.hand) book.turns book.salvos r.1.items) }
    ensures refusal { IfErr result (λ e. BookIsRefused book.settings book.hand book.kinds book.start book.turns e) }
    ensures least { steps.old ≤ steps.new }
    ensures most { steps.new ≤ steps.old + (((generations book.turns + most_hit_generations book.salvos) + length book.kinds) + 1) }
{
    let settings = book.settings;
    let kinds = valid_kinds(alloc, &settings, book.kinds, steps)?;
    let hand = still_hand(alloc, book.hand, steps)?;
    let mut verdicts = Vec::new(alloc);
    let turns = sound_turns(alloc, &settings, &kinds, book.turns, &mut verdicts, steps)?;
    check_states(alloc, &turns, book.start, &settings)?;
    let salvos = sound_salvos(alloc, &hand, book.salvos, &mut verdicts, steps)?;
    let index = index_by_shape(alloc, &salvos)?;
    let checked = CheckedBook {
        settings,
        kinds,
        start: book.start,
        hand,
        turns,
        salvos,
        index,
    };
    Ok((checked, verdicts))
}
