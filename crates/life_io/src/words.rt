//! The words of the command line, for programs.

use std::{env, io};

/// The status that a program ends with where there is no memory.
pub const NO_MEMORY: u8 = 12;

/// The status that a program ends with where the system gives no words, or takes no answer.
pub const NO_WORDS: u8 = 20;

/// The words after the program's name.
///
/// # Errors
/// `OutOfMemory` for want of memory, or what the system says in place of the words.
pub fn words_of(rt: &HostRuntime) -> io::Result<Vec<String>> {
    let mut words = Vec::new(rt.alloc());
    for word in env::args(rt)?.skip(1) {
        words.push(word)?;
    }
    Ok(words)
}
