use crate::sink::{PutError, Sink, put_faults};
use crate::writing::write_piece;
use std::io;
use std::io::{Print, Stderr, Stdout};
use std::marker::Model;

/// A standard stream of the system. It tells no bytes and is never quiet.
///
/// Contracts see it as its count of faults.
#[derive(Drop)]
pub struct HostSink<P: Print> {
    stream: P,
    faults: u64,
}

impl<P: Print> Model for HostSink<P> {
    ghost use Rattle.std.specs.Prelude.{ℕ};

    ghost Value = { ℕ };

    ghost view = { λ s. s.faults };
}

impl<P: Print> HostSink<P> {
    ghost use Rattle.std.specs.Prelude.{◌≡◌};

    /// What this handle prints to, before the first fault.
    pub fn new(stream: P) -> HostSink<P>
        ensures { result ≡ 0 }
    {
        HostSink { stream, faults: 0 }
    }
}

impl HostSink<Stdout> {
    ghost use Rattle.std.specs.Prelude.{◌≡◌};

    /// The standard output of this runtime.
    pub fn output(rt: HostRuntime) -> HostSink<Stdout>
        ensures { result ≡ 0 }
    {
        HostSink::new(rt.stdout())
    }
}

impl HostSink<Stderr> {
    ghost use Rattle.std.specs.Prelude.{◌≡◌};

    /// The standard error of this runtime.
    pub fn error(rt: HostRuntime) -> HostSink<Stderr>
        ensures { result ≡ 0 }
    {
        HostSink::new(rt.stderr())
    }
}

impl<P: Print> Sink for HostSink<P> {
    ghost use Rattle.std.specs.Prelude.{None};

    ghost written = { λ _. None };

    ghost faults = { λ faults. faults };

    ghost quiet = { λ _. ⊥ };

    /// Writes the piece at once, with nothing kept back. Each error of the system is a fault, and so is
    /// a write that takes nothing.
    fn put(&mut self, bytes: &[u8]) -> Result<(), PutError> {
        let outcome = write_piece(&mut io::writer(&self.stream), bytes);
        self.faults = put_faults(self.faults, &outcome);
        outcome
    }
}
