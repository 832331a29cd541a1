//! Equality and hashing of candidates: they are those of their numbers.

ghost use Rattle.find_order.specs.Same.{same_candidate, candidate_hash};
ghost use Rattle.find_order.specs.SameLaws.{same_candidate_equiv, candidate_hash-same};
ghost use Rattle.std.specs.Cmp.{partial_equiv_from_equiv};

use crate::candidate::Candidate;
use std::hash::{Hash, Hasher};

impl PartialEq for Candidate {
    ghost eq = { same_candidate };

    ghost laws = { partial_equiv_from_equiv same_candidate_equiv };

    fn eq(&self, other: &Candidate) -> bool {
        match (self, other) {
            (Candidate::Lanes(lanes), Candidate::Lanes(others)) => lanes == others,
            (
                Candidate::Delays { kind, delays },
                Candidate::Delays {
                    kind: other_kind,
                    delays: others,
                },
            ) => kind == other_kind && delays == others,
            _ => false,
        }
    }
}

impl Eq for Candidate {
    ghost laws = { same_candidate_equiv };
}

impl Hash for Candidate {
    ghost hash_input = { candidate_hash };

    ghost respects_eq = { candidate_hash-same };

    fn hash<H: Hasher>(&self, state: &mut H) {
        match self {
            Candidate::Lanes(lanes) => lanes.items().hash(state),
            Candidate::Delays { kind, delays } => {
                kind.hash(state);
                delays.items().hash(state);
            }
        }
    }
}
