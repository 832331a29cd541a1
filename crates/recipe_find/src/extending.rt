//! A book and what the first candidates of its finder add.

ghost use Rattle.std.specs.Prelude.{◌≡◌, ◌+◌, ◌*◌, ◌≤◌, [], ◌∷◌, ◌++◌, length, IfOk, IfErr, OnOk, MatchOption};
ghost use Rattle.std.specs.List.{Contains};
ghost use Rattle.book_parts.specs.Proper.{IsProperBook};
ghost use Rattle.recipe_book.specs.Checked.{said_of};
ghost use Rattle.find_order.specs.Fit.{IsFitting};
ghost use Rattle.recipe_find.specs.declared.limits.TheConstants.{MOST_GENERATIONS};
ghost use Rattle.recipe_find.specs.Adding.{known};
ghost use Rattle.recipe_find.specs.Known.{HasJust};
ghost use Rattle.recipe_find.specs.Growing.{Grow};
ghost use Rattle.recipe_find.specs.Extended.{IsExtended};
ghost use Rattle.recipe_find.specs.Refusals.{FindingIsRefused};

use crate::copies::{copy_kinds, copy_salvos, copy_turns};
use crate::error::FindError;
use crate::found_salvo::found_salvo;
use crate::found_turn::found_turn;
use crate::known::known_candidates;
use crate::room::test_room;
use book_parts::{RawBook, RawSalvo, RawTurn};
use find_order::{Candidate, Candidates};
use find_salvo::SalvoHits;
use indexmap::IndexSet;
use life_cells::NoMemory;
use life_steps::Steps;
use recipe_book::CheckedBook;
use std::alloc::Global;
use std::sync::ledger::Ledger;

/// The turns and salvos of a book that grows.
#[derive(Drop)]
struct Entries {
    turns: Vec<RawTurn>,
    salvos: Vec<RawSalvo>,
}

/// Adds what was found, if anything was.
fn push_found<T: Drop>(entries: &mut Vec<T>, found: Option<T>) -> Result<(), NoMemory>
    ensures { OnOk result (MatchOption found (entries.new.items ≡ entries.old.items) (λ entry. entries.new.items ≡ entries.old.items ++ (entry ∷ []))) }
{
    if let Some(entry) = found {
        entries.push(entry)?;
    }
    Ok(())
}

/// Adds what the candidate with this number adds to a book that has no entry of it.
fn add_found<L: Ledger>(
    alloc: Global,
    book: &CheckedBook,
    number: u32,
    candidate: &Candidate,
    hits: &mut SalvoHits<'_>,
    entries: &mut Entries,
    steps: &mut Steps<L>,
) -> Result<(), NoMemory>
    requires fit { IsFitting (length book.now.kinds) candidate.now }
    requires unknown { Contains (known (said_of book.now)) candidate.now → ⊥ }
    requires hand { hits.old.hand ≡ book.now.hand }
    ensures grow { OnOk result (Grow (said_of book.now) number candidate.now entries.old.turns.items entries.new.turns.items entries.old.salvos.items entries.new.salvos.items) }
    ensures hand { hits.new.hand ≡ hits.old.hand }
    ensures least { steps.old ≤ steps.new }
    ensures most { steps.new ≤ steps.old + MOST_GENERATIONS }
{
    match candidate {
        Candidate::Lanes(lanes) => {
            let found = found_salvo(alloc, book, number, lanes, hits, steps)?;
            push_found(&mut entries.salvos, found)?;
            Ok(())
        }
        Candidate::Delays { kind, delays } => {
            let found = found_turn(alloc, book, number, *kind, delays, steps)?;
            push_found(&mut entries.turns, found)?;
            Ok(())
        }
    }
}

/// Adds what the candidate with this number adds to a book.
fn try_candidate<L: Ledger>(
    alloc: Global,
    book: &CheckedBook,
    taken: &IndexSet<Candidate>,
    number: u32,
    candidate: &Candidate,
    hits: &mut SalvoHits<'_>,
    entries: &mut Entries,
    steps: &mut Steps<L>,
) -> Result<(), NoMemory>
    requires taken { HasJust taken.now.keys (known (said_of book.now)) }
    requires fit { IsFitting (length book.now.kinds) candidate.now }
    requires hand { hits.old.hand ≡ book.now.hand }
    ensures grow { OnOk result (Grow (said_of book.now) number candidate.now entries.old.turns.items entries.new.turns.items entries.old.salvos.items entries.new.salvos.items) }
    ensures hand { hits.new.hand ≡ hits.old.hand }
    ensures least { steps.old ≤ steps.new }
    ensures most { steps.new ≤ steps.old + MOST_GENERATIONS }
{
    if taken.contains(candidate) {
        return Ok(());
    }
    add_found(alloc, book, number, candidate, hits, entries, steps)
}

/// The turns and salvos of a book, and what the first candidates of its finder add, up to so many.
fn found_entries<L: Ledger>(
    alloc: Global,
    book: &CheckedBook,
    budget: u32,
    steps: &mut Steps<L>,
) -> Result<Entries, NoMemory>
    ensures extended { IfOk result (λ entries. IsExtended (said_of book.now) budget (record (said_of book.now) { turns = entries.turns.items; salvos = entries.salvos.items })) }
    ensures least { steps.old ≤ steps.new }
    ensures most { steps.new ≤ steps.old + MOST_GENERATIONS * budget }
{
    let taken = known_candidates(alloc, book)?;
    let mut hits = SalvoHits::start(alloc, book.checked_hand());
    let settings = book.settings();
    let kinds = book.kinds();
    let mut candidates = Candidates::of(alloc, settings, kinds.len())?;
    let mut entries = Entries {
        turns: copy_turns(alloc, book.turns())?,
        salvos: copy_salvos(alloc, book.salvos())?,
    };
    for tried in 0..budget {
        let Some(candidate) = candidates.next(alloc)? else {
            return Ok(entries);
        };
        try_candidate(
            alloc,
            book,
            &taken,
            tried + 1,
            &candidate,
            &mut hits,
            &mut entries,
            steps,
        )?;
    }
    Ok(entries)
}

/// The accepted entries of a book, followed by what the first candidates of its finder add, up to so many (docs/DEFINITIONS.md, "The finder").
/// Every generation that is evolved is counted in `steps`: at most 262,208 for a candidate.
///
/// # Errors
/// `BookFull` where the whole has more than a book may have: the first of salvos, turns and live cells of which there are too many, and how
/// many they are. `Memory` for want of memory, at any time.
pub fn extend<L: Ledger>(
    alloc: Global,
    book: &CheckedBook,
    budget: u32,
    steps: &mut Steps<L>,
) -> Result<RawBook, FindError>
    ensures extended { IfOk result (λ whole. IsExtended (said_of book.now) budget whole) }
    ensures proper { IfOk result (λ whole. IsProperBook whole) }
    ensures refusal { IfErr result (λ e. FindingIsRefused (said_of book.now) budget e) }
    ensures least { steps.old ≤ steps.new }
    ensures most { steps.new ≤ steps.old + MOST_GENERATIONS * budget }
{
    let entries = found_entries(alloc, book, budget, steps)?;
    let whole = RawBook {
        settings: *book.settings(),
        hand: book.hand().copy()?,
        kinds: copy_kinds(alloc, book.kinds())?,
        start: book.start(),
        turns: entries.turns,
        salvos: entries.salvos,
    };
    test_room(&whole)?;
    Ok(whole)
}
