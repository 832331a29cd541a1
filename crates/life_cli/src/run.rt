//! The top call.

ghost use Rattle.std.specs.Prelude.{◌≡◌, ◌≢◌, ◌≤◌, ◌⊎◌, IfErr, IfSome, OnOk};
ghost use Rattle.std.specs.Io.KnownBytes.{append_known};
ghost use Rattle.life_io.specs.Counts.{IsLaterCount};
ghost use Rattle.life_cli.specs.Putting.{PuttingRefuses};
ghost use Rattle.life_cli.specs.Run.{Ends, Counted, NamesAreHeld};
ghost use Rattle.life_cli.specs.Complete.{IsDue, IsDoneBut};
ghost use Rattle.life_cli.specs.ErrorLines.{Gains, HasLine, without_line};
ghost use Rattle.life_cli.specs.declared.status.Status.TheVariants.{Done};

use crate::answering::answer;
use crate::laws::passing_stages_do_not_refuse;
use crate::lines::error_line;
use crate::status::Status;
use life_io::{Depot, PutError, Sink};
use life_steps::Steps;
use life_words::laws::{asking_words_are_not_refused, words_ask_for_one_command};
use life_words::{WordsError, read_words};
use std::alloc::Global;
use std::sync::ledger::Ledger;

/// Puts a whole text.
fn put_text<O: Sink>(out: &mut O, text: &[u8]) -> Result<(), Status>
    ensures ok { OnOk result (O.written out.new ≡ append_known (O.written out.old) text.now) }
    ensures err { IfErr result (λ status. PuttingRefuses (O.written out.old) (O.written out.new) text.now (O.faults out.old) (O.faults out.new) status) }
    ensures count { IsLaterCount (O.faults out.old) (O.faults out.new) }
    ensures no_fault { result ≢ Err Status.WriteFault → O.faults out.new ≡ O.faults out.old }
    ensures quiet_stays { O.quiet out.old → O.quiet out.new }
    ensures quiet_serves { O.quiet out.old → result ≢ Err Status.WriteFault }
{
    match out.put(text) {
        Ok(()) => Ok(()),
        Err(PutError::Failed) => Err(Status::WriteFault),
        Err(PutError::Memory) => Err(Status::Memory),
    }
}

/// Runs the command that the words say, up to its answer on `out`.
fn run_command<D: Depot, O: Sink, L: Ledger>(
    alloc: Global,
    words: &[String],
    depot: &mut D,
    out: &mut O,
    steps: &mut Steps<L>,
) -> Status
    ensures ends { Ends (record { words = words.now; told = D.texts depot.old; reads = D.faults depot.old; reads_then = D.faults depot.new; out = O.written out.old; out_then = O.written out.new; writes = O.faults out.old; writes_then = O.faults out.new }) result }
    ensures counted { Counted words.now (D.texts depot.old) steps.old steps.new }
    ensures steps { steps.old ≤ steps.new }
    ensures texts_stay { D.texts depot.new ≡ D.texts depot.old }
    ensures read_count { D.faults depot.old ≤ D.faults depot.new }
    ensures write_count { O.faults out.old ≤ O.faults out.new }
    ensures no_read_fault { result ≢ Status.ReadFault → D.faults depot.new ≡ D.faults depot.old }
    ensures quiet_depot { D.quiet depot.old → NamesAreHeld words.now (D.texts depot.old) → result ≢ Status.ReadFault }
    ensures quiet_out { O.quiet out.old → result ≢ Status.WriteFault }
    ensures depot_stays_quiet { D.quiet depot.old → D.quiet depot.new }
    ensures out_stays_quiet { O.quiet out.old → O.quiet out.new }
{
    let command = match read_words(alloc, words) {
        Ok(command) => command,
        Err(WordsError::Memory) => return Status::Memory,
        Err(refusal) => return Status::Words(refusal),
    };
    match answer(alloc, &command, depot, steps) {
        Err(status) => status,
        Ok(text) => match put_text(out, &text) {
            Err(status) => status,
            Ok(()) => Status::Done,
        },
    }
}

/// What a status becomes where there is no memory for its line.
fn without_line(status: Status) -> Status
    ensures { result ≡ without_line status }
{
    match status {
        Status::WriteFault => Status::WriteFault,
        _ => Status::Memory,
    }
}

/// Puts the line of a status that has one.
fn put_line<E: Sink>(alloc: Global, status: Status, err: &mut E) -> Status
    requires { HasLine status }
    ensures same { (result ≡ status) ⊎ (result ≡ without_line status) }
    ensures gains { Gains (E.written err.old) (E.written err.new) (E.faults err.old) (E.faults err.new) result }
    ensures count { E.faults err.old ≤ E.faults err.new }
    ensures quiet_stays { E.quiet err.old → E.quiet err.new }
{
    match error_line(alloc, status) {
        Err(_) => without_line(status),
        Ok(line) => match err.put(line.as_bytes()) {
            Ok(()) => status,
            Err(PutError::Failed) => status,
            Err(PutError::Memory) => without_line(status),
        },
    }
}

/// Puts the line of a status, where it has one. Want of memory for the line is a status of its own, but after a write fault.
fn report<E: Sink>(alloc: Global, status: Status, err: &mut E) -> Status
    ensures same { (result ≡ status) ⊎ (result ≡ without_line status) }
    ensures done { status ≡ Done → result ≡ Done }
    ensures gains { Gains (E.written err.old) (E.written err.new) (E.faults err.old) (E.faults err.new) result }
    ensures count { E.faults err.old ≤ E.faults err.new }
    ensures quiet_stays { E.quiet err.old → E.quiet err.new }
{
    match status {
        Status::Done => Status::Done,
        Status::Memory => Status::Memory,
        _ => put_line(alloc, status, err),
    }
}

/// Runs the command that the words say: its texts are fetched from `depot`, its answer is put to `out`, and where it has no
/// answer a line is put to `err`. Each generation that an engine makes is counted in `steps`. The statuses are those of docs/FORMATS.md.
pub fn life_run<D: Depot, O: Sink, E: Sink, L: Ledger>(
    alloc: Global,
    words: &[String],
    depot: &mut D,
    out: &mut O,
    err: &mut E,
    steps: &mut Steps<L>,
) -> Status
    // Why each status comes, and what the depot's count, the answer's sink and its count do. Want of memory is free.
    ensures ends { Ends (record { words = words.now; told = D.texts depot.old; reads = D.faults depot.old; reads_then = D.faults depot.new; out = O.written out.old; out_then = O.written out.new; writes = O.faults out.old; writes_then = O.faults out.new }) result }

    // Where each stage of what the words ask for passes the run is done, but for want of memory and counted faults.
    ensures complete { IfSome (D.texts depot.old) (λ texts. IsDue words.now texts → IsDoneBut result) }

    // What standard error gains.
    ensures lines { Gains (E.written err.old) (E.written err.new) (E.faults err.old) (E.faults err.new) result }

    // The generations that are counted.
    ensures counted { Counted words.now (D.texts depot.old) steps.old steps.new }
    ensures steps { steps.old ≤ steps.new }

    // Over a quiet depot that holds the names and a quiet `out` no fault comes; what is quiet stays so.
    ensures quiet_depot { D.quiet depot.old → NamesAreHeld words.now (D.texts depot.old) → (result ≢ Status.ReadFault) × (D.faults depot.new ≡ D.faults depot.old) }
    ensures quiet_out { O.quiet out.old → result ≢ Status.WriteFault }
    ensures depot_stays_quiet { D.quiet depot.old → D.quiet depot.new }
    ensures out_stays_quiet { O.quiet out.old → O.quiet out.new }
    ensures err_stays_quiet { E.quiet err.old → E.quiet err.new }

    ensures texts_stay { D.texts depot.new ≡ D.texts depot.old }
    ensures read_count { D.faults depot.old ≤ D.faults depot.new }
    ensures write_count { O.faults out.old ≤ O.faults out.new }
    ensures line_count { E.faults err.old ≤ E.faults err.new }
{
    // These say that words ask for one command and aren't refused then, and that where each stage passes none refuses; they do nothing.
    words_ask_for_one_command();
    asking_words_are_not_refused();
    passing_stages_do_not_refuse();
    let status = run_command(alloc, words, depot, out, steps);
    report(alloc, status, err)
}
