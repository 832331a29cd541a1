//! A recipe book whose entries were checked: exactly its sound turns and salvos, with its settings, kinds and hand, and a verdict on each
//! entry.
#![tactic(auto)]

pub mod checked_book;
mod checking;
mod index;
pub mod laws;
pub mod refusal;
mod salvos;
mod turns;
pub mod verdict;

pub use checked_book::CheckedBook;
pub use checking::check_book;
pub use refusal::BookRefusal;
pub use verdict::Verdict;
