//! Which plan a checked book gives for a target, or where it stops: for each island in order the first usable salvo, the turns for each of its
//! lanes, and in the end the turns that close the elbow. x goes right and y goes down; places are those of the hand as a salvo begins.
#![tactic(auto)]

mod closing;
mod counting;
mod draft;
pub mod error;
pub mod event;
mod farewell;
mod finding;
mod fitting;
mod hands;
pub mod laws;
pub mod numbered;
pub mod placing;
mod planner;
pub mod planning;
mod search;
mod serving;
pub mod throw;
mod throwing;
mod trial;
mod walk;
mod ways;

pub use error::PlanError;
pub use event::{Event, Plan};
pub use life_target::Target;
pub use planning::plan;
