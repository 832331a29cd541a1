//! The least start of a turn.

ghost use Rattle.std.specs.Prelude.{◌≡◌, ◌↔◌, ℕ, ◌≤◌, ◌^◌, pos, neg_ℤ, ◌+ℤ◌, ◌≤ℤ◌};
ghost use Rattle.std.specs.List.{AllByRecursion};
ghost use Rattle.book_parts.specs.Limits.{IsFrom};
ghost use Rattle.life_scene.specs.Hits.{first_quarter, last_index_before};
ghost use Rattle.life_cells.specs.Boxes.{IsBoxInRange};
ghost use Rattle.recipe_hit.specs.SceneBoxes.{as_box};
ghost use Rattle.event_times.specs.Events.{IsSpared};
ghost use Rattle.event_times.specs.Least.{IsNear, IsNearTurn, IsNearSent, IsNearEmission, IsNearHit, AreNear, been, IsBehindTime, IsBehindSent, SparesThese, IsLeastOf};

use book_parts::limits::LEAST_GAP;
use life_cells::Bounds;

/// A turn that has been.
#[derive(Clone, Copy, Debug, PartialEq, Eq)]
pub struct TurnTime {
    /// The generation in which it ended.
    pub end: u64,
    /// How far it moved the elbow on, in cells along the diagonal.
    pub step: i64,
}

/// A glider that a turn throws, in the plane's coordinates.
#[derive(Clone, Copy, Debug, PartialEq, Eq)]
pub struct Emission {
    /// Its lane.
    pub lane: i64,
    /// Its index at the turn's end.
    pub j: i64,
}

/// A glider that was thrown.
#[derive(Clone, Copy, Debug, PartialEq, Eq)]
pub struct Sent {
    /// Its lane, and its index when it was thrown.
    pub glider: Emission,
    /// The generation in which it was thrown.
    pub end: u64,
}

/// A hit in time.
#[derive(Clone, Copy, Debug, PartialEq, Eq)]
pub struct HitTime {
    /// The generation in which it is over.
    pub end: u64,
    /// The bounds of all its cells, where the hand stands.
    pub bounds: Bounds,
}

/// The first generation that isn't before this time, and not before so long after it.
fn later_by(time: u64, wait: i64) -> u64
    requires time { time ≤ 2 ^ 56 }
    requires wait { IsFrom (neg_ℤ (pos (2 ^ 59))) (pos (2 ^ 59)) wait }
    ensures from { (start : ℕ) → ((time ≤ start) × ((pos time +ℤ wait) ≤ℤ pos start)) ↔ result ≤ start }
    ensures small { result ≤ 2 ^ 60 }
{
    time + wait.max(0) as u64
}

/// The first generation in which a turn may start behind the turn before.
fn behind_turn(before: Option<TurnTime>) -> u64
    requires { IsNearTurn before }
    ensures from { (start : ℕ) → IsBehindTime before start ↔ result ≤ start }
    ensures small { result ≤ 2 ^ 60 }
{
    match before {
        None => 0,
        Some(turn) => later_by(turn.end, LEAST_GAP + 4 * turn.step),
    }
}

/// The first generation in which a turn may start behind the last glider thrown.
fn behind_glider(reach: i64, sent: Option<Sent>) -> u64
    requires reach { IsNear reach }
    requires sent { IsNearSent sent }
    ensures from { (start : ℕ) → IsBehindSent reach sent start ↔ result ≤ start }
    ensures small { result ≤ 2 ^ 60 }
{
    match sent {
        None => 0,
        Some(Sent { glider, end }) => later_by(end, 2 * (reach + 4 - glider.lane) - glider.j),
    }
}

/// The quarter of a glider's index from which it comes, on this lane, to what lies in these bounds.
fn first_quarter(lane: i64, bounds: Bounds) -> i64
    requires lane { IsNear lane }
    requires bounds { IsBoxInRange (2 ^ 56) bounds }
    ensures quarter { result ≡ first_quarter lane (as_box bounds) }
    ensures range { IsFrom (neg_ℤ (pos (2 ^ 58))) (pos (2 ^ 58)) result }
{
    (bounds.left - 6 - lane).max(-bounds.bottom - 6)
}

/// The last index of a glider on this lane before it comes to what lies in these bounds.
fn last_before(lane: i64, bounds: Bounds) -> i64
    requires lane { IsNear lane }
    requires bounds { IsBoxInRange (2 ^ 56) bounds }
    ensures last { result ≡ last_index_before lane (as_box bounds) }
    ensures range { IsFrom (neg_ℤ (pos (2 ^ 61))) (pos (2 ^ 61)) result }
{
    4 * first_quarter(lane, bounds) + 3
}

/// The first generation in which this glider may be thrown without coming to the hit.
fn sparing(glider: Emission, hit: HitTime) -> u64
    requires glider { IsNearEmission glider }
    requires hit { IsNearHit hit }
    ensures from { (thrown : ℕ) → IsSpared thrown glider.lane glider.j (been hit) ↔ result ≤ thrown }
    ensures small { result ≤ 2 ^ 56 }
{
    let early = glider.j - last_before(glider.lane, hit.bounds);
    (hit.end as i64 + early.min(0)).max(0) as u64
}

/// The first generation from this one on in which this glider may be thrown without coming to any of the hits.
fn sparing_all(from: u64, glider: Emission, hits: &[HitTime]) -> u64
    requires from { from ≤ 2 ^ 61 }
    requires glider { IsNearEmission glider }
    requires hits { AllByRecursion IsNearHit hits.now }
    ensures from { (thrown : ℕ) → ((from ≤ thrown) × SparesThese thrown (Some glider) hits.now) ↔ result ≤ thrown }
    ensures least { from ≤ result }
{
    let mut first = from;
    for hit in hits {
        first = first.max(sparing(glider, *hit));
    }
    first
}

/// The least generation, at least 0, in which a turn of `n` generations may start: not before the turn before has ended, 20 generations
/// behind it and 4 more for each cell by which it moved the elbow on; not before the last glider thrown, `sent`, has passed the reach; and
/// so that the glider that it throws itself, `emits`, spares each of the hits: the hit is over when the glider is thrown, or the glider
/// is not yet at its bounds when it ends. Each of these is passed over where its option is none. It takes no memory.
///
/// All numbers are from -2^56 to 2^56.
pub fn least_start(
    reach: i64,
    before: Option<TurnTime>,
    sent: Option<Sent>,
    n: u32,
    emits: Option<Emission>,
    hits: &[HitTime],
) -> u64
    requires { AreNear reach before sent emits hits.now }
    ensures { IsLeastOf reach before sent n emits hits.now result }
{
    let start = behind_turn(before).max(behind_glider(reach, sent));
    match emits {
        None => start,
        Some(glider) => sparing_all(start + u64::from(n), glider, hits) - u64::from(n),
    }
}
