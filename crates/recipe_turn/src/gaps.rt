//! The gaps between a turn's gliders.

ghost use Rattle.std.specs.Prelude.{◌<◌, MatchOption, IfOk, IfErr, pos, length};
ghost use Rattle.std.specs.List.{AllByRecursion};
ghost use Rattle.recipe_turn.specs.Turn.{AreSpaced};
ghost use Rattle.recipe_turn.specs.Gaps.{AreApart, IsFirstNarrow};
ghost use Rattle.recipe_turn.specs.Refusals.{GapsAreRefused};
ghost use Rattle.book_parts.specs.Proper.{IsDelay};

use crate::refusal::TurnRefusal;
use book_parts::limits::LEAST_GAP;

/// The place, counted from 1, of the first delay that isn't 0 as the first or at least a gap more than the one before; None exactly where
/// there is none. It takes no memory.
pub fn first_narrow(delays: &[i64]) -> Option<usize>
    requires delays { AllByRecursion IsDelay delays.now }
    requires some { 0 < length delays.now }
    ensures { MatchOption result (AreApart delays.now) (IsFirstNarrow delays.now) }
{
    if delays[0] != 0 {
        return Some(1);
    }
    for place in 1..delays.len() {
        if delays[place] < delays[place - 1] + LEAST_GAP {
            return Some(place + 1);
        }
    }
    None
}

/// Refuses delays that are too near one another, or too near the turn's last generation.
pub(crate) fn test_gaps(delays: &[i64], n: u32) -> Result<(), TurnRefusal>
    requires delays { AllByRecursion IsDelay delays.now }
    requires some { 0 < length delays.now }
    ensures spaced { IfOk result (λ _. AreSpaced delays.now (pos n)) }
    ensures refusal { IfErr result (λ e. GapsAreRefused delays.now n e) }
{
    if let Some(place) = first_narrow(delays) {
        return Err(TurnRefusal::Gap { place });
    }
    if i64::from(n) < delays[delays.len() - 1] + LEAST_GAP {
        return Err(TurnRefusal::Short { n });
    }
    Ok(())
}
