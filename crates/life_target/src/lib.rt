//! Targets: what a book is to build, a still life that was tested.
#![tactic(auto)]

pub mod laws;
pub mod refusal;
pub mod target;

pub use refusal::TargetError;
pub use target::Target;
