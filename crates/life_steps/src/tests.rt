ghost use Rattle.std.specs.Prelude.{◌≡◌, ◌+◌, ◌<◌};

use crate::Steps;
use std::marker::Brand;
use std::sync::ledger::{Blank, Ledger};

/// What counts for any ledger: an engine's calls stand in its place.
fn two_generations<L: Ledger>(steps: &mut Steps<L>)
    ensures { steps.new ≡ steps.old + 2 }
{
    steps.tick();
    steps.tick();
}

/// What `main` or a test calls with a blank: it makes the counter and hands it on. No parameter is a
/// `&str` or a `char`.
fn with_counter<L: Ledger>(blank: Blank)
    requires name { blank.name ≡ L.name }
    requires parts { blank.parts ≡ L.parts }
    requires some { 0 < blank.parts }
{
    let mut steps = Steps::<L>::new(blank);
    two_generations(&mut steps);
}

/// The pick of the ledger stands in `proofs/tests/counts_from_a_blank/Invariants.antt`. `main` writes the
/// same lines under its own folder; a caller with bounds of its own writes `ghosts-with_counter g a`.
#[test]
fn counts_from_a_blank() {
    with_counter::<Brand>(Blank::new(1));
}
