//! Cases as data: the files that the words name have a case a line, and what each answers is printed behind it. What must be printed
//! stands in `stdout` beside `src`, taken from outside this program. docs/CASES.md says how a line is written.
#![tactic(auto)]

ghost use Rattle.std.specs.Prelude.{◌≡◌, ◌<◌};

mod books;
mod calls;
mod cases;
mod cells;
mod clearing;
mod hands;
mod numbers;
mod plans;
mod runs;
mod sets;
mod show;
mod texts;
mod tracks;
mod words;

use cases::Cases;
use life_cells::NoMemory;
use life_io::{HostDepot, HostSink, NO_MEMORY, NO_WORDS, Sink, words_of};
use life_steps::Steps;
use std::marker::Brand;
use std::process::ExitCode;
use std::sync::ledger::{Blank, Ledger};

/// Runs the cases of the files with these names; whether standard output took what they answer.
fn run<L: Ledger>(rt: HostRuntime, names: &[String], blank: Blank) -> Result<bool, NoMemory>
    requires name { blank.name ≡ L.name }
    requires parts { blank.parts ≡ L.parts }
    requires some { 0 < blank.parts }
{
    let alloc = rt.alloc();
    let mut depot = HostDepot::new(rt);
    let mut out = HostSink::output(rt);
    let mut steps = Steps::<L>::new(blank);
    let mut cases = Cases::new(alloc);
    let mut taken = true;
    for name in names {
        let report = cases.answers(&mut depot, name.as_str(), &mut steps)?;
        if out.put(report.as_bytes()).is_err() {
            taken = false;
        }
    }
    Ok(taken)
}

fn main(rt: HostRuntime) -> ExitCode {
    let Ok(names) = words_of(&rt) else {
        return ExitCode::from(NO_WORDS);
    };
    match run::<Brand>(rt, &names, Blank::new(1)) {
        Ok(true) => ExitCode::from(0),
        Ok(false) => ExitCode::from(NO_WORDS),
        Err(NoMemory) => ExitCode::from(NO_MEMORY),
    }
}
