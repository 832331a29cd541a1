//! The summary of what a sample builds for the empty target.

ghost use Rattle.std.specs.Prelude.{◌≡◌, ◌++◌, IfOk, OnOk, OnErr};
ghost use Rattle.life_sample.specs.Summary.{line, summary};

use life_cells::NoMemory;
use std::alloc::Global;
use std::io::Write;

/// Appends the line of a number.
fn push_line(text: &mut Vec<u8>, what: &str, number: u64) -> Result<(), NoMemory>
    ensures { OnOk result (text.new.items ≡ text.old.items ++ line what.now number) }
{
    write!(text, "{what} {number}\n").map_err(|_| NoMemory)
}

/// The whole summary.
fn text_of(alloc: Global, count: u32, last_delay: u64, n: u64) -> Result<Vec<u8>, NoMemory>
    ensures { IfOk result (λ text. text.items ≡ summary count last_delay n) }
{
    let mut text = Vec::new(alloc);
    push_line(&mut text, "kinds", u64::from(count))?;
    push_line(&mut text, "gliders", u64::from(count))?;
    push_line(&mut text, "last delay", last_delay)?;
    push_line(&mut text, "generations", n)?;
    Ok(text)
}

/// Appends the summary: how many kinds and how many gliders there are, the last glider's delay, and after how many generations nothing is left.
/// After a refusal `into` is as before.
///
/// # Errors
///
/// Only for want of memory.
pub fn sample_summary(
    alloc: Global,
    count: u32,
    last_delay: u64,
    n: u64,
    into: &mut Vec<u8>,
) -> Result<(), NoMemory>
    ensures ok { OnOk result (into.new.items ≡ into.old.items ++ summary count last_delay n) }
    ensures err { OnErr result (into.new.items ≡ into.old.items) }
{
    let text = text_of(alloc, count, last_delay, n)?;
    into.extend_from_slice(&text)?;
    Ok(())
}
