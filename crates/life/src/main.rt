//! `life`, the construction compiler for Conway's Life: the words of the command line, the files of the system and its
//! standard streams are handed to the top call, and the program ends with the number of its status.
#![tactic(auto)]

ghost use Rattle.std.specs.Prelude.{◌≡◌, ◌<◌};

use life_cli::life_run;
use life_io::{HostDepot, HostSink, NO_MEMORY, NO_WORDS, words_of};
use life_steps::Steps;
use std::io;
use std::marker::Brand;
use std::process::ExitCode;
use std::sync::ledger::{Blank, Ledger};

/// Runs a command over files and standard streams, and gives its status's number. Nothing counts its generations.
fn run<L: Ledger>(rt: HostRuntime, words: &[String], blank: Blank) -> u8
    requires name { blank.name ≡ L.name }
    requires parts { blank.parts ≡ L.parts }
    requires some { 0 < blank.parts }
{
    let mut depot = HostDepot::new(rt);
    let mut out = HostSink::output(rt);
    let mut err = HostSink::error(rt);
    let mut steps = Steps::<L>::new(blank);
    let status = life_run(
        rt.alloc(),
        words,
        &mut depot,
        &mut out,
        &mut err,
        &mut steps,
    );
    status.number()
}

fn main(rt: HostRuntime) -> ExitCode {
    match words_of(&rt) {
        Ok(words) => ExitCode::from(run::<Brand>(rt, &words, Blank::new(1))),
        Err(fault) if fault.kind() == io::ErrorKind::OutOfMemory => ExitCode::from(NO_MEMORY),
        Err(_) => ExitCode::from(NO_WORDS),
    }
}
