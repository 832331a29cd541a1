ghost use Rattle.std.specs.Prelude.{◌≡◌, ◌≢◌, ℕ, List, OnOk, IsSome};
ghost use Rattle.std.specs.Io.KnownBytes.{append_known};
ghost use Rattle.std.specs.declared.option.Option.{Option};
ghost use Rattle.life_io.specs.Counts.{IsLaterCount};
ghost use Rattle.life_io.specs.Sinks.{AppendsPrefix, CountsPut, put_faults_after};

/// Why a piece was not put, or not all of it.
#[derive(Clone, Copy, Debug, PartialEq, Eq)]
pub enum PutError {
    /// The sink had a fault, which its count shows. A first part of the piece may have been written.
    Failed,
    /// Memory ran out, and nothing was written.
    Memory,
}

/// The count of faults after this answer, before which it was `faults`: a failure adds one.
pub(crate) fn put_faults(faults: u64, outcome: &Result<(), PutError>) -> u64
    ensures { result ≡ put_faults_after faults outcome.now }
{
    match outcome {
        Err(PutError::Failed) => faults.saturating_add(1),
        _ => faults,
    }
}

/// Where bytes are written, one piece after the other.
pub trait Sink {
    /// The bytes written so far, where the sink tells them.
    ghost written: { Self → Option (List ℕ) };

    /// How many faults came so far: at most 2^64 - 1, where the count stays.
    ghost faults: { Self → ℕ };

    /// Such a sink tells its bytes, and has no fault.
    ghost quiet: { Self → Type 0 };

    /// Writes all of the piece after what was written before.
    fn put(&mut self, bytes: &[u8]) -> Result<(), PutError>
        ensures ok { OnOk result (written self.new ≡ append_known (written self.old) bytes.now) }
        ensures failed { result ≡ Err PutError.Failed →
            AppendsPrefix (written self.old) (written self.new) bytes.now }
        ensures memory { result ≡ Err PutError.Memory → written self.new ≡ written self.old }

        // The count rises at `Failed`, and at no other answer.
        ensures cause { CountsPut (faults self.old) (faults self.new) result }
        ensures later { IsLaterCount (faults self.old) (faults self.new) }

        ensures quiet_stays { quiet self.old → quiet self.new }
        ensures quiet_tells { quiet self.old → IsSome (written self.old) }
        ensures quiet_serves { quiet self.old → result ≢ Err PutError.Failed };
}
