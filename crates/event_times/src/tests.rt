ghost use Rattle.std.specs.List.{AllByRecursion};
ghost use Rattle.event_times.specs.Least.{AreNearEmissions, IsNearHit};

use crate::least::{Emission, HitTime, Sent, TurnTime, least_start};
use life_cells::Bounds;

/// The least start of a turn that follows an elbow moved on by 64 cells, with a hit still under way 500 generations later.
fn start(emits: Option<Emission>, hits: &[HitTime]) -> u64
    requires emits { AreNearEmissions emits }
    requires hits { AllByRecursion IsNearHit hits.now }
{
    let before = TurnTime { end: 100, step: 64 };
    let sent = Sent {
        glider: Emission { lane: 100, j: 0 },
        end: 100,
    };
    least_start(40, Some(before), Some(sent), 30, emits, hits)
}

#[test]
fn waits_for_a_hit_that_its_glider_would_disturb(rt: HostRuntime) {
    let glider = Emission { lane: 100, j: 0 };
    let hit = HitTime {
        end: 1000,
        bounds: Bounds {
            left: 200,
            top: -150,
            right: 250,
            bottom: -100,
        },
    };
    assert_eq!(rt; start(Some(glider), &[hit]), 591);
    assert_eq!(rt; start(Some(glider), &[]), 376);
    assert_eq!(rt; start(None, &[hit]), 376);
}
