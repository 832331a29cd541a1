//! The words of the command line, and the command that they say.
#![tactic(auto)]

pub mod command;
mod dash;
pub mod laws;
pub mod number;
pub mod read;
pub mod refusal;
mod values;
pub mod word;

pub use command::Command;
pub use read::read_words;
pub use refusal::WordsError;
pub use word::Word;
