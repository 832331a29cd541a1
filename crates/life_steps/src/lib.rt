//! The counter of engine generations, which bounds state: it takes no bytes and no time.
//!
//! A caller that counts nothing, as `main` and a test, has no counter to hand on. It calls a function of
//! its own that is generic over the ledger, passes the marker type `Brand` and `Blank::new(1)`, and picks
//! the blank's ledger in its `Invariants.antt`. That function takes no `&str` and no `char`, since such a
//! call offers no pick: pass words as `&[String]`. The tests of this crate show both parts.
#![tactic(auto)]

mod steps;

pub use steps::Steps;

#[cfg(test)]
mod tests;
