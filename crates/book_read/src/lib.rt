//! Recipe books as text. Lines count from 1 and end in a line feed; a carriage return before it is dropped.
#![tactic(auto)]

mod counting;
mod draft;
pub mod error;
mod joining;
pub mod laws;
mod named;
mod outside;
pub mod read;
mod whole;

pub use book_lines::{BookWord, LineFault};
pub use error::BookError;
pub use read::read_book;
