//! What a checked book builds for a target: when the turns of a plan start and its hits end, the pattern, cell for cell, and the generation in
//! which it is the target. Times are generations; x goes right and y goes down.
#![tactic(auto)]

pub mod building;
pub mod compiling;
pub mod delay;
mod entries;
mod gliders;
pub mod laws;
mod pattern;
pub mod scheduling;
pub mod times;

pub use building::{Built, build};
pub use compiling::compile;
pub use delay::last_delay;
pub use event_times::{Emission, HitTime, Sent, TurnTime, least_start};
pub use laws::patterns_have_three_parts;
pub use scheduling::schedule;
pub use times::Schedule;
