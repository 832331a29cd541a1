//! Lines of a text. A line is ended by a line feed, which the last line may lack; a carriage return before it is dropped.
//! Lines that begin with `#`, and lines of spaces and tabs alone, are passed over.
#![tactic(auto)]

pub mod first_line;
pub mod passed;

pub use first_line::split_line;
pub use passed::{is_blank, is_blank_byte, is_comment, is_passed_over};
