//! Golly's RLE: texts of patterns are read and written, and what they mean is a definition of its own.
//! x goes right and y goes down; the first item of a text stands at its place, which is (0,0) if none is given.
#![tactic(auto)]

mod comments;
mod drawing;
pub mod error;
mod head;
mod header;
pub mod laws;
mod lines;
pub mod pattern;
mod place;
pub mod read;
mod start;
pub mod write;
pub mod written_laws;

pub use error::RleError;
pub use pattern::Pattern;
pub use read::read_rle;
pub use rle_items::{BodyError, read_body};
pub use write::{write_body, write_rle};
