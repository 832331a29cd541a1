ghost use Rattle.std.specs.Prelude.{◌≡◌, ◌+◌, ◌≤◌, OnOk, vec_len};
ghost use Rattle.std.specs.Io.{StartsWith};

use crate::depot::{Depot, FetchError, fetch_faults};
use crate::reading::read_text;
use std::fs;
use std::marker::Model;
use std::rt::Files;

/// The files of the system, by their paths. It tells no texts and is never quiet.
///
/// Contracts see it as its count of faults.
#[derive(Drop)]
pub struct HostDepot<R: Files> {
    rt: R,
    faults: u64,
}

impl<R: Files> Model for HostDepot<R> {
    ghost use Rattle.std.specs.Prelude.{ℕ};

    ghost Value = { ℕ };

    ghost view = { λ d. d.faults };
}

impl<R: Files> HostDepot<R> {
    ghost use Rattle.std.specs.Prelude.{◌≡◌};

    /// The files that this runtime opens, before the first fault.
    pub fn new(rt: R) -> HostDepot<R>
        ensures { result ≡ 0 }
    {
        HostDepot { rt, faults: 0 }
    }
}

impl<R: Files> Depot for HostDepot<R> {
    ghost use Rattle.std.specs.Prelude.{None};

    ghost texts = { λ _. None };

    ghost faults = { λ faults. faults };

    ghost quiet = { λ _. ⊥ };

    /// Opens the file of that path and reads it to its end, or to `limit + 1` bytes. Each error of the
    /// system is a fault.
    #[tactic(auto, using(crate::proofs::Untold::text_of_untold, crate::proofs::Untold::start_of_untold))]
    fn fetch(&mut self, name: &str, limit: usize, into: &mut Vec<u8>) -> Result<(), FetchError> {
        let outcome = read_file(&self.rt, name, limit, into);
        self.faults = fetch_faults(self.faults, &outcome);
        outcome
    }
}

/// Appends what the file of that path has, or its first `limit + 1` bytes where it has more than `limit`.
fn read_file<R: Files>(
    rt: &R,
    path: &str,
    limit: usize,
    into: &mut Vec<u8>,
) -> Result<(), FetchError>
    ensures begins { StartsWith into.new.items into.old.items }
    ensures fits { OnOk result (vec_len into.new ≤ vec_len into.old + limit) }
    ensures size { result ≡ Err FetchError.TooLong → vec_len into.new ≡ vec_len into.old + (limit + 1) }
{
    match fs::open(rt, path) {
        Ok(mut file) => read_text(&mut file, limit, into),
        Err(_) => Err(FetchError::Failed),
    }
}
