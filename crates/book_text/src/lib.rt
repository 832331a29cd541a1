//! The text of a recipe book: reading it (`book_read`) and writing it (`book_write`), as one.
#![tactic(auto)]

pub use book_read::{BookError, BookWord, LineFault, read_book};
pub use book_write::write_book;
