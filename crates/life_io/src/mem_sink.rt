use crate::bytes::append_until;
use crate::calls::due_after;
use crate::sink::{PutError, Sink, put_faults};
use std::alloc::Global;
use std::marker::Model;

/// A call that is to fail, and after how many bytes of its piece.
#[derive(Clone, Copy, Debug, PartialEq, Eq)]
pub struct PutFail {
    /// The number of the call, from 1.
    pub call: u64,
    /// How many bytes of the piece are written before the fault.
    pub after: usize,
}

/// Bytes in memory, with the calls that are to fail. Calls count from 1.
///
/// Contracts see it as what was written, those calls, and how many calls and faults there were.
#[derive(Drop)]
pub struct MemSink {
    written: Vec<u8>,
    fails: Vec<PutFail>,
    calls: u128,
    faults: u64,
}

impl Model for MemSink {
    ghost use Rattle.life_io.specs.MemSinks.{SinkState};

    ghost Value = { SinkState };

    ghost view = { λ s. record {
      written = s.written.items;
      fails = s.fails.items;
      calls = s.calls;
      faults = s.faults;
    } };
}

impl MemSink {
    ghost use Rattle.std.specs.Prelude.{◌≡◌, []};
    ghost use Rattle.life_io.specs.MemSinks.{new_sink};

    /// An empty sink, of which the calls in `fails` answer `Failed`. Of two entries for one call the
    /// first is meant.
    pub fn new(alloc: Global, fails: Vec<PutFail>) -> MemSink
        ensures { result ≡ new_sink fails.items }
    {
        MemSink {
            written: Vec::new(alloc),
            fails,
            calls: 0,
            faults: 0,
        }
    }

    /// How many faults came so far: at most 2^64 - 1, where the count stays.
    pub fn faults(&self) -> u64
        ensures { result ≡ self.now.faults }
    {
        self.faults
    }

    /// All that was written.
    pub fn bytes(&self) -> &[u8]
        ensures { result.now ≡ self.now.written }
    {
        self.written.as_slice()
    }
}

impl Sink for MemSink {
    ghost use Rattle.std.specs.Prelude.{◌≡◌, ◌≢◌, ◌++◌, [], Some, OnOk};
    ghost use Rattle.std.specs.Io.KnownBytes.{append_known};
    ghost use Rattle.life_io.specs.Calls.{next_call};
    ghost use Rattle.life_io.specs.Counts.{IsLaterCount};
    ghost use Rattle.life_io.specs.MemSinks.{PutsUntil, fail_of};
    ghost use Rattle.life_io.specs.Sinks.{AppendsPrefix, CountsPut, put_faults_after};

    ghost written = { λ s. Some s.written };

    ghost faults = { λ s. s.faults };

    ghost quiet = { λ s. s.fails ≡ [] };

    /// As every sink's. A call fails exactly where it is among those that are to fail, after the bytes
    /// that its entry names, or after the whole piece where it is shorter.
    fn put(&mut self, bytes: &[u8]) -> Result<(), PutError>
        ensures puts { PutsUntil (fail_of self.old.fails (next_call self.old.calls))
            self.old.written self.new.written bytes.now result }
        ensures counted { self.new ≡ record self.old {
          written = self.new.written;
          calls = next_call self.old.calls;
          faults = put_faults_after self.old.faults result;
        } }

        ensures ok { OnOk result (Some self.new.written ≡ append_known (Some self.old.written) bytes.now) }
        ensures failed { result ≡ Err PutError.Failed →
            AppendsPrefix (Some self.old.written) (Some self.new.written) bytes.now }
        ensures memory { result ≡ Err PutError.Memory → self.new.written ≡ self.old.written }
        ensures cause { CountsPut self.old.faults self.new.faults result }
        ensures later { IsLaterCount self.old.faults self.new.faults }
        ensures quiet_stays { self.old.fails ≡ [] → self.new.fails ≡ [] }
        ensures quiet_serves { self.old.fails ≡ [] → result ≢ Err PutError.Failed }
    {
        self.calls = self.calls.saturating_add(1);
        let due = due_after(&self.fails, self.calls);
        let outcome = append_until(due, bytes, &mut self.written);
        self.faults = put_faults(self.faults, &outcome);
        outcome
    }
}
