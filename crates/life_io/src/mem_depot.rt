use crate::calls::is_due;
use crate::depot::{Depot, FetchError, fetch_faults};
use crate::texts::append_unless;
use std::marker::Model;

/// A text under its name.
#[derive(Drop)]
pub struct NamedText {
    /// The name, by which a fetch asks for it.
    pub name: String,
    /// The bytes of the text.
    pub text: Vec<u8>,
}

/// Texts in memory, with the numbers of the calls that are to fail. Calls count from 1.
///
/// Contracts see it as its texts, those numbers, and how many calls and faults there were.
#[derive(Drop)]
pub struct MemDepot {
    texts: Vec<NamedText>,
    fails: Vec<u64>,
    calls: u128,
    faults: u64,
}

impl Model for MemDepot {
    ghost use Rattle.std.specs.Prelude.{map};
    ghost use Rattle.life_io.specs.MemDepots.{DepotState, held_text};

    ghost Value = { DepotState };

    ghost view = { λ d. record {
      texts = map held_text d.texts.items;
      fails = d.fails.items;
      calls = d.calls;
      faults = d.faults;
    } };
}

impl MemDepot {
    ghost use Rattle.std.specs.Prelude.{◌≡◌};
    ghost use Rattle.life_io.specs.MemDepots.{new_depot};

    /// A depot of these texts, of which a call whose number is in `fails` answers `Failed`. Where two
    /// texts have one name the first is meant.
    pub fn new(texts: Vec<NamedText>, fails: Vec<u64>) -> MemDepot
        ensures { result ≡ new_depot texts.items fails.items }
    {
        MemDepot {
            texts,
            fails,
            calls: 0,
            faults: 0,
        }
    }

    /// How many faults came so far: at most 2^64 - 1, where the count stays.
    pub fn faults(&self) -> u64
        ensures { result ≡ self.now.faults }
    {
        self.faults
    }
}

impl Depot for MemDepot {
    ghost use Rattle.std.specs.Prelude.{◌≡◌, ◌≢◌, ◌⊎◌, ◌↔◌, [], Some, OnOk, IsNone, IsSome, Contains};
    ghost use Rattle.std.specs.Io.{StartsWith};
    ghost use Rattle.life_io.specs.Calls.{next_call};
    ghost use Rattle.life_io.specs.Counts.{IsLaterCount};
    ghost use Rattle.life_io.specs.Depots.{AppendsText, AppendsStart, CountsFetch, fetch_faults_after};
    ghost use Rattle.life_io.specs.Texts.{Holds, text_of};

    ghost texts = { λ d. Some d.texts };

    ghost faults = { λ d. d.faults };

    ghost quiet = { λ d. d.fails ≡ [] };

    /// As every depot's. A call fails exactly where its number is among those that are to fail, or no
    /// text has that name; then `into` is as it was.
    fn fetch(&mut self, name: &str, limit: usize, into: &mut Vec<u8>) -> Result<(), FetchError>
        ensures fails { (result ≡ Err FetchError.Failed) ↔
            (Contains self.old.fails (next_call self.old.calls) ⊎ IsNone (text_of self.old.texts name.now)) }
        ensures counted { self.new ≡ record self.old {
          calls = next_call self.old.calls;
          faults = fetch_faults_after self.old.faults result;
        } }
        ensures failed { result ≡ Err FetchError.Failed → into.new.items ≡ into.old.items }

        ensures ok { OnOk result
            (AppendsText (Some self.old.texts) name.now limit into.old.items into.new.items) }
        ensures too_long { result ≡ Err FetchError.TooLong →
            AppendsStart (Some self.old.texts) name.now limit into.old.items into.new.items }
        ensures begins { StartsWith into.new.items into.old.items }
        ensures texts_stay { self.new.texts ≡ self.old.texts }
        ensures cause { CountsFetch self.old.faults self.new.faults result }
        ensures later { IsLaterCount self.old.faults self.new.faults }
        ensures quiet_stays { self.old.fails ≡ [] → self.new.fails ≡ [] }
        ensures quiet_serves { self.old.fails ≡ [] → Holds (Some self.old.texts) name.now →
            result ≢ Err FetchError.Failed }
    {
        self.calls = self.calls.saturating_add(1);
        let is_due = is_due(&self.fails, self.calls);
        let outcome = append_unless(is_due, &self.texts, name, limit, into);
        self.faults = fetch_faults(self.faults, &outcome);
        outcome
    }
}
