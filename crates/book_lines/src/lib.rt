//! Lines of a recipe book, one at a time: what a line states, or what is wrong in its form.
#![tactic(auto)]

mod body;
pub mod book_word;
pub mod fault;
pub mod items;
pub mod keyword;
pub mod laws;
pub mod limit;
pub mod line;
mod name;
mod number;
mod numbers;
mod placed;
mod salvo;
mod setting;
pub mod statement;
mod turn;
pub mod words;

pub use book_word::{BOOK_WORDS, BookWord};
pub use fault::{LineError, LineFault};
pub use keyword::Keyword;
pub use limit::Limit;
pub use line::statement_of;
pub use statement::{
    Body, ElbowLine, NamedEnd, Placed, SalvoLine, SettingLine, Statement, TurnLine,
};
pub use words::words_of;
