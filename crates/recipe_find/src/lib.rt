//! The recipe finder: a book grows by what the first candidates of its search add, salvos and turns, each sound and the least of its kind.
#![tactic(auto)]

mod copies;
pub mod error;
pub mod extending;
mod found_salvo;
mod found_turn;
mod known;
pub mod laws;
pub mod limits;
mod names;
mod room;

pub use error::{FindError, Full};
pub use extending::extend;
