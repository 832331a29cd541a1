//! The top call of the program: from the words of the command line and the texts of a depot to the bytes of a sink.
#![tactic(auto)]

mod answering;
mod books;
mod checking;
mod compiling;
mod extending;
mod fetch;
mod inputs;
pub mod laws;
mod lines;
mod replaying;
pub mod run;
mod sampling;
pub mod status;
mod verdict_lines;
mod writing;

pub use build_plan::PlanError;
pub use life_target::TargetError;
pub use life_words::{Command, Word, WordsError, read_words};
pub use recipe_book::BookRefusal;
pub use recipe_find::Full;
pub use run::life_run;
pub use status::{Status, Which};
