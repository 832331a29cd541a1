//! Where texts come from and where they go: depots and sinks as traits with meanings, the ones in
//! memory that fail when they are told to, and the ones over files and the standard streams. And a
//! program's words.
#![tactic(auto)]

mod bytes;
mod calls;
mod depot;
mod host_depot;
mod host_sink;
mod mem_depot;
mod mem_sink;
mod reading;
mod sink;
mod texts;
mod words;
mod writing;

pub use depot::{Depot, FetchError};
pub use host_depot::HostDepot;
pub use host_sink::HostSink;
pub use mem_depot::{MemDepot, NamedText};
pub use mem_sink::{MemSink, PutFail};
pub use sink::{PutError, Sink};
pub use words::{NO_MEMORY, NO_WORDS, words_of};

#[cfg(test)]
mod tests;
