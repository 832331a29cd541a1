//! Turns and hits in time, one after the other.

ghost use Rattle.std.specs.Prelude.{◌≡◌, ℕ, ◌≤◌, pos, ◌*ℤ◌, ◌≤ℤ◌, [], length, take, drop, IfOk, OnOk, OnErr};
ghost use Rattle.book_parts.specs.Limits.{IsFrom};
ghost use Rattle.book_parts.specs.Proper.{IsProperEnd, IsProperTurn};
ghost use Rattle.book_parts.specs.declared.limits.TheConstants.{MOST_GLIDERS, GREATEST_REACH};
ghost use Rattle.event_times.specs.TimedTurns.{advance_of};
ghost use Rattle.event_times.specs.Events.{hit_end, no_history};
ghost use Rattle.event_times.specs.Least.{AreNear, IsLeastOf, thrown_of};
ghost use Rattle.event_times.specs.Clock.{emission_of, sent_after, AreOver, IsKept, TurnIsAdded, HitIsAdded, IsSameClock, Shows, ends_of, n_of};
ghost use Rattle.event_times.specs.Early.{IsNearShift, IsEarly, IsEarlySent, IsEarlyFrame, latest_end};

use crate::least::{Emission, HitTime, Sent, TurnTime, least_start};
use book_parts::{RawTurn, TurnEnd};
use life_cells::NoMemory;
use recipe_hit::HitFrame;
use std::alloc::Global;

/// The turns and hits so far, in generations.
#[derive(Debug, Drop)]
pub struct Clock {
    /// When the turns start.
    pub starts: Vec<u64>,
    /// The hits, in order.
    pub hits: Vec<HitTime>,
    /// How many of the first hits are known to be over when the last turn ends: no later turn depends on them.
    pub over: usize,
    /// The last turn.
    pub before: Option<TurnTime>,
    /// The last glider thrown.
    pub sent: Option<Sent>,
}

/// How far a turn moves the elbow.
pub fn advance_of(end: TurnEnd) -> i64
    ensures { result ≡ advance_of end }
{
    match end {
        TurnEnd::Close => 0,
        TurnEnd::Move { shift, .. } | TurnEnd::Emit { shift, .. } => shift,
    }
}

/// The glider that a turn throws at this shift, if it throws one, in the plane's coordinates.
fn emission_of(end: TurnEnd, at: i64) -> Option<Emission>
    requires end { (kinds : ℕ) × IsProperEnd kinds end }
    requires at { IsNearShift at }
    ensures { result ≡ emission_of end at }
{
    match end {
        TurnEnd::Close | TurnEnd::Move { .. } => None,
        TurnEnd::Emit { lane, j, .. } => Some(Emission {
            lane: lane + 2 * at,
            j: j - 4 * at,
        }),
    }
}

/// How many of the first hits are over by a time, where so many of them are known to be: as far as there is one after the other.
fn over_by(hits: &[HitTime], known: usize, time: u64) -> usize
    requires known { known ≤ length hits.now }
    requires over { AreOver time (take known hits.now) }
    ensures within { result ≤ length hits.now }
    ensures over { AreOver time (take result hits.now) }
{
    for place in known..hits.len() {
        if hits[place].end > time {
            return place;
        }
    }
    hits.len()
}

/// The least start of a turn after those so far.
fn start_after(clock: &Clock, reach: i64, n: u32, emits: Option<Emission>) -> u64
    requires within { clock.now.over ≤ length clock.now.hits.items }
    requires near { AreNear reach clock.now.before clock.now.sent emits (drop clock.now.over clock.now.hits.items) }
    ensures { IsLeastOf reach clock.now.before clock.now.sent n emits (drop clock.now.over clock.now.hits.items) result }
{
    let live = &clock.hits[clock.over..];
    least_start(reach, clock.before, clock.sent, n, emits, live)
}

/// The last glider thrown, where one was thrown last before, and a turn throws this at its end.
fn sent_after(emits: Option<Emission>, end: u64, before: Option<Sent>) -> Option<Sent>
    ensures { result ≡ sent_after emits end before }
{
    match emits {
        None => before,
        Some(glider) => Some(Sent { glider, end }),
    }
}

/// Adds a turn, started as early as it may.
///
/// # Errors
/// `NoMemory` for want of memory; then the clock is as before.
pub fn add_turn(clock: &mut Clock, reach: i64, turn: &RawTurn, shift: i64) -> Result<(), NoMemory>
    requires reach { IsFrom (pos 0) GREATEST_REACH reach }
    requires turn { (kinds : ℕ) × IsProperTurn kinds turn.now }
    requires shift { IsNearShift shift }
    requires kept { IsKept clock.old }
    requires early { IsEarly (length clock.old.starts.items) clock.old }
    requires few { length clock.old.starts.items ≤ MOST_GLIDERS }
    ensures added { OnOk result (TurnIsAdded reach turn.now shift clock.old clock.new) }
    ensures err { OnErr result (IsSameClock clock.old clock.new) }
{
    let emits = emission_of(turn.end, shift);
    let start = start_after(clock, reach, turn.n, emits);
    let end = start + u64::from(turn.n);
    clock.starts.push(start)?;
    clock.over = over_by(&clock.hits, clock.over, end);
    clock.before = Some(TurnTime {
        end,
        step: advance_of(turn.end),
    });
    clock.sent = sent_after(emits, end, clock.sent);
    Ok(())
}

/// When the hit of a thrown glider is over.
fn end_of_hit(sent: Sent, frame: HitFrame, generations: u32) -> u64
    requires sent { IsEarlySent latest_end (Some sent) }
    requires frame { IsEarlyFrame frame }
    requires comes { sent.glider.j ≤ℤ (pos 4 *ℤ frame.start) }
    ensures { pos result ≡ hit_end (thrown_of sent) (record { frame = frame; generations = generations }) }
{
    (sent.end as i64 + 4 * frame.start - sent.glider.j) as u64 + u64::from(generations)
}

/// Adds the hit of the glider thrown last.
///
/// # Errors
/// `NoMemory` for want of memory; then the clock is as before.
pub fn add_hit(clock: &mut Clock, frame: HitFrame, generations: u32) -> Result<(), NoMemory>
    requires sent { IsEarlySent latest_end clock.old.sent }
    requires frame { IsEarlyFrame frame }
    requires comes { (sent : Sent) → clock.old.sent ≡ Some sent → sent.glider.j ≤ℤ (pos 4 *ℤ frame.start) }
    ensures added { OnOk result (HitIsAdded frame generations clock.old clock.new) }
    ensures err { OnErr result (IsSameClock clock.old clock.new) }
{
    match clock.sent {
        None => Ok(()),
        Some(sent) => {
            clock.hits.push(HitTime {
                end: end_of_hit(sent, frame, generations),
                bounds: frame.bounds,
            })?;
            Ok(())
        }
    }
}

impl Clock {
    /// No turn and no hit has been.
    pub fn new(alloc: Global) -> Self
        ensures shows { Shows no_history result }
        ensures none { result.starts.items ≡ [] }
        ensures early { IsEarly 0 result }
    {
        Clock {
            starts: Vec::new(alloc),
            hits: Vec::new(alloc),
            over: 0,
            before: None,
            sent: None,
        }
    }

    /// The greater of the end of the last turn and the end of the last hit.
    pub fn number(&self) -> u64
        ensures { result ≡ n_of self.now.before self.now.hits.items }
    {
        let turns = match self.before {
            None => 0,
            Some(turn) => turn.end,
        };
        match self.hits.last() {
            None => turns,
            Some(hit) => turns.max(hit.end),
        }
    }

    /// The ends of the hits, in order.
    pub fn hit_ends(&self, alloc: Global) -> Result<Vec<u64>, NoMemory>
        ensures { IfOk result (λ ends. ends.items ≡ ends_of self.now.hits.items) }
    {
        let mut ends = Vec::new(alloc);
        for hit in &self.hits {
            ends.push(hit.end)?;
        }
        Ok(ends)
    }
}
