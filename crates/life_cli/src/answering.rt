//! The answer to a command.

ghost use Rattle.std.specs.Prelude.{◌≡◌, ◌≢◌, ◌≤◌};
ghost use Rattle.life_io.specs.Counts.{Rose};
ghost use Rattle.life_cli.specs.Commands.{stages_of, IsWithinLimits};
ghost use Rattle.life_cli.specs.Stages.{EndWith};
ghost use Rattle.life_cli.specs.Run.{AreHeld};

use crate::checking::check;
use crate::compiling::compile;
use crate::extending::extend;
use crate::replaying::replay;
use crate::sampling::sample;
use crate::status::Status;
use life_io::Depot;
use life_steps::Steps;
use life_words::{Command, WordsError};
use std::alloc::Global;
use std::sync::ledger::Ledger;

/// The text that answers a command.
pub(crate) fn answer<D: Depot, L: Ledger>(
    alloc: Global,
    command: &Command,
    depot: &mut D,
    steps: &mut Steps<L>,
) -> Result<Vec<u8>, Status>
    requires { IsWithinLimits command.now }
    ensures ends { EndWith (stages_of (D.texts depot.old) command.now) (Rose (D.faults depot.old) (D.faults depot.new)) steps.old steps.new result }
    ensures steps { steps.old ≤ steps.new }
    ensures texts_stay { D.texts depot.new ≡ D.texts depot.old }
    ensures count { D.faults depot.old ≤ D.faults depot.new }
    ensures no_fault { result ≢ Err Status.ReadFault → D.faults depot.new ≡ D.faults depot.old }
    ensures quiet_stays { D.quiet depot.old → D.quiet depot.new }
    ensures quiet_serves { D.quiet depot.old → AreHeld (D.texts depot.old) command.now → result ≢ Err Status.ReadFault }
{
    match command {
        Command::Check { book } => check(alloc, book.text(), depot, steps),
        Command::Extend { book, budget } => extend(alloc, book.text(), *budget, depot, steps),
        Command::Compile { book, target } => {
            compile(alloc, book.text(), target.text(), depot, steps)
        }
        Command::Replay {
            pattern,
            generations,
        } => replay(alloc, pattern.text(), *generations, depot, steps),
        Command::Sample { count, gap } => sample(alloc, *count, *gap, steps),
        // These two aren't there yet.
        Command::Certify { .. } | Command::Audit { .. } => {
            Err(Status::Words(WordsError::UnknownCommand))
        }
    }
}
