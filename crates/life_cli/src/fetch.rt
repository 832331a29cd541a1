//! Fetching a text by its name.

ghost use Rattle.std.specs.Prelude.{◌≡◌, ◌≢◌, IfOk, IfErr};
ghost use Rattle.life_io.specs.Counts.{IsLaterCount, Rose};
ghost use Rattle.life_io.specs.Texts.{Holds};
ghost use Rattle.life_cli.specs.Stages.{HasCause};
ghost use Rattle.life_cli.specs.Inputs.{IsHeld, FetchRefuses};

use crate::status::{Status, Which};
use life_io::{Depot, FetchError};
use std::alloc::Global;

/// The most bytes that a text may have.
const TEXT_LIMIT: usize = 16_777_216;

/// The text of a name, which `which` stands for.
pub(crate) fn fetch_text<D: Depot>(
    alloc: Global,
    depot: &mut D,
    name: &str,
    which: Which,
) -> Result<Vec<u8>, Status>
    ensures ok { IfOk result (λ text. IsHeld (D.texts depot.old) name.now text.items) }
    ensures err { IfErr result (λ status. HasCause (Rose (D.faults depot.old) (D.faults depot.new)) (FetchRefuses (D.texts depot.old) name.now which) status) }
    ensures texts_stay { D.texts depot.new ≡ D.texts depot.old }
    ensures count { IsLaterCount (D.faults depot.old) (D.faults depot.new) }
    ensures no_fault { result ≢ Err Status.ReadFault → D.faults depot.new ≡ D.faults depot.old }
    ensures quiet_stays { D.quiet depot.old → D.quiet depot.new }
    ensures quiet_serves { D.quiet depot.old → Holds (D.texts depot.old) name.now → result ≢ Err Status.ReadFault }
{
    let mut text = Vec::new(alloc);
    match depot.fetch(name, TEXT_LIMIT, &mut text) {
        Ok(()) => Ok(text),
        Err(FetchError::Failed) => Err(Status::ReadFault),
        Err(FetchError::TooLong) => Err(Status::TooLong { which }),
        Err(FetchError::Memory) => Err(Status::Memory),
    }
}
