//! The canonical text of a recipe book. What is written is read back as the same book.
#![tactic(auto)]

mod bodies;
mod kinds;
pub mod laws;
mod salvos;
mod settings;
mod turns;
mod words;
pub mod write;

pub use write::write_book;
