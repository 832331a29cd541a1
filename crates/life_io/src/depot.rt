ghost use Rattle.std.specs.Prelude.{◌≡◌, ◌≢◌, ℕ, List, OnOk, IsSome};
ghost use Rattle.std.specs.Io.{StartsWith};
ghost use Rattle.std.specs.declared.option.Option.{Option};
ghost use Rattle.life_io.specs.Counts.{IsLaterCount};
ghost use Rattle.life_io.specs.Depots.{AppendsText, AppendsStart, CountsFetch, fetch_faults_after};
ghost use Rattle.life_io.specs.Texts.{HeldText, Holds};

/// Why a text did not come.
#[derive(Clone, Copy, Debug, PartialEq, Eq)]
pub enum FetchError {
    /// The source had a fault, which its count shows: also where it holds no text of that name.
    Failed,
    /// The text has more bytes than the limit.
    TooLong,
    /// Memory ran out.
    Memory,
}

/// The count of faults after this answer, before which it was `faults`: a failure adds one.
pub(crate) fn fetch_faults(faults: u64, outcome: &Result<(), FetchError>) -> u64
    ensures { result ≡ fetch_faults_after faults outcome.now }
{
    match outcome {
        Err(FetchError::Failed) => faults.saturating_add(1),
        _ => faults,
    }
}

/// Where texts are kept under names.
pub trait Depot {
    /// The texts by name, where the depot tells them.
    ghost texts: { Self → Option (List HeldText) };

    /// How many faults came so far: at most 2^64 - 1, where the count stays.
    ghost faults: { Self → ℕ };

    /// Such a depot tells its texts, and has no fault at a name that it holds.
    ghost quiet: { Self → Type 0 };

    /// Appends the text of that name to `into`, if it has at most `limit` bytes.
    ///
    /// At `TooLong` the first `limit + 1` bytes of the text are appended; after every refusal `into`
    /// begins with what it held.
    fn fetch(&mut self, name: &str, limit: usize, into: &mut Vec<u8>) -> Result<(), FetchError>
        ensures ok { OnOk result
            (AppendsText (texts self.old) name.now limit into.old.items into.new.items) }
        ensures too_long { result ≡ Err FetchError.TooLong →
            AppendsStart (texts self.old) name.now limit into.old.items into.new.items }
        ensures begins { StartsWith into.new.items into.old.items }
        ensures texts_stay { texts self.new ≡ texts self.old }

        // The count rises at `Failed`, and at no other answer.
        ensures cause { CountsFetch (faults self.old) (faults self.new) result }
        ensures later { IsLaterCount (faults self.old) (faults self.new) }

        ensures quiet_stays { quiet self.old → quiet self.new }
        ensures quiet_tells { quiet self.old → IsSome (texts self.old) }
        ensures quiet_serves { quiet self.old → Holds (texts self.old) name.now →
            result ≢ Err FetchError.Failed };
}
