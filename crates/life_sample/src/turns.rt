//! The turns of the sample.

ghost use Rattle.std.specs.Prelude.{◌≡◌, ◌≤◌, IfOk};
ghost use Rattle.life_sample.specs.Sample.{ending, turn, turns};

use crate::limits::MOST_COUNT;
use crate::names::numbered;
use book_parts::{Numbers, RawTurn, TurnEnd};
use life_cells::NoMemory;
use std::alloc::Global;

/// How many generations a turn takes.
const GENERATIONS: u32 = 30;

/// What the turn with this number leaves: the first nothing, and each other one the kind before its own, moved by the gap.
fn ending(number: u32, gap: u32) -> TurnEnd
    requires { 1 ≤ number }
    ensures { result ≡ ending gap number }
{
    if number == 1 {
        TurnEnd::Close
    } else {
        TurnEnd::Move {
            kind: number as usize - 1,
            shift: i64::from(gap),
        }
    }
}

/// The turn with this number: one glider takes the kind's first block away.
fn turn(alloc: Global, number: u32, gap: u32) -> Result<RawTurn, NoMemory>
    requires { 1 ≤ number }
    ensures { IfOk result (λ made. made ≡ turn gap number) }
{
    let name = numbered(alloc, "t", number)?;
    let delays = Numbers::from_slice(alloc, &[0])?;
    Ok(RawTurn {
        name,
        kind: number as usize,
        end: ending(number, gap),
        n: GENERATIONS,
        delays,
    })
}

/// The turns, one for each number up to `count`.
pub(crate) fn turns(alloc: Global, count: u32, gap: u32) -> Result<Vec<RawTurn>, NoMemory>
    requires { count ≤ MOST_COUNT }
    ensures { IfOk result (λ made. made.items ≡ turns gap count) }
{
    let mut turns = Vec::new(alloc);
    for before in 0..count {
        let turn = turn(alloc, before + 1, gap)?;
        turns.push(turn)?;
    }
    Ok(turns)
}
