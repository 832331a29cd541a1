//! Runs of the whole program, over texts and sinks in memory.

use crate::show::show_lines;
use crate::texts::Texts;
use life_cells::NoMemory;
use life_cli::life_run;
use life_io::{MemDepot, MemSink, NamedText, PutFail};
use life_steps::Steps;
use std::alloc::Global;
use std::mem;
use std::sync::ledger::Ledger;

/// The calls that fail in the next run.
#[derive(Drop)]
pub struct Fails {
    alloc: Global,
    fetches: Vec<u64>,
    out: Vec<PutFail>,
    err: Vec<PutFail>,
}

impl Fails {
    /// No call fails.
    pub fn new(alloc: Global) -> Fails {
        Fails {
            alloc,
            fetches: Vec::new(alloc),
            out: Vec::new(alloc),
            err: Vec::new(alloc),
        }
    }

    /// Does what a line says that makes a call fail; whether it says so.
    pub fn take(&mut self, word: &str, rest: &str) -> Result<bool, NoMemory> {
        if word == "fetch_fails" {
            let Ok(call) = rest.parse::<u64>() else {
                return Ok(false);
            };
            self.fetches.push(call)?;
            return Ok(true);
        }
        let Some(fail) = put_fail(rest) else {
            return Ok(false);
        };
        match word {
            "out_fails" => self.out.push(fail)?,
            "err_fails" => self.err.push(fail)?,
            _ => return Ok(false),
        }
        Ok(true)
    }
}

/// A call and the bytes that it takes before it fails.
fn put_fail(rest: &str) -> Option<PutFail> {
    let (call, after) = rest.split_once(' ')?;
    let call = call.parse::<u64>().ok()?;
    let after = after.parse::<usize>().ok()?;
    Some(PutFail { call, after })
}

/// A depot of the texts that the words name.
fn depot_of(
    alloc: Global,
    texts: &Texts,
    words: &[String],
    fails: Vec<u64>,
) -> Result<MemDepot, NoMemory> {
    let mut held = Vec::new(alloc);
    for word in words {
        if let Some(text) = texts.get(word.as_str()) {
            held.push(NamedText {
                name: word.clone()?,
                text: text.to_vec(alloc)?,
            })?;
        }
    }
    Ok(MemDepot::new(held, fails))
}

/// Runs the program with these words, and prints its status's number, what it put to each sink, and the counts of faults where there
/// are any.
pub fn run_life<L: Ledger>(
    alloc: Global,
    texts: &Texts,
    fails: &mut Fails,
    words: &[String],
    report: &mut String,
    steps: &mut Steps<L>,
) -> Result<(), NoMemory> {
    let fails = mem::replace(fails, Fails::new(alloc));
    let Fails {
        fetches,
        out,
        err,
        ..
    } = fails;
    let mut depot = depot_of(alloc, texts, words, fetches)?;
    let mut out = MemSink::new(alloc, out);
    let mut err = MemSink::new(alloc, err);
    let number = life_run(alloc, words, &mut depot, &mut out, &mut err, steps).number();
    write!(report, "status {number}\n")?;
    show_lines(report, "| ", out.bytes())?;
    show_lines(report, "! ", err.bytes())?;
    let (read, written, told) = (depot.faults(), out.faults(), err.faults());
    if read > 0 || written > 0 || told > 0 {
        write!(report, "faults {read} {written} {told}\n")?;
    }
    Ok(())
}
