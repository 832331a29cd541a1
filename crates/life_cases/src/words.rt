//! Calls on the words of a command line.

use life_cells::NoMemory;
use life_words::{Command, WordsError, read_words};
use std::alloc::Global;

/// The command that the words say, with its texts and numbers, or why they say none.
pub fn show_command(
    alloc: Global,
    words: &[String],
    report: &mut String,
) -> Result<bool, NoMemory> {
    match read_words(alloc, words) {
        Ok(command) => show_parts(&command, report)?,
        Err(WordsError::Memory) => return Err(NoMemory),
        Err(refusal) => write!(report, "{refusal}\n")?,
    }
    Ok(true)
}

/// A command's name, its texts and its numbers.
fn show_parts(command: &Command, report: &mut String) -> Result<(), NoMemory> {
    match command {
        Command::Check { book } => write!(report, "check book {}\n", book.text())?,
        Command::Extend { book, budget } => {
            write!(report, "extend book {} budget {budget}\n", book.text())?;
        }
        Command::Compile { book, target } => {
            write!(
                report,
                "compile book {} target {}\n",
                book.text(),
                target.text()
            )?;
        }
        Command::Certify { book, target } => {
            write!(
                report,
                "certify book {} target {}\n",
                book.text(),
                target.text()
            )?;
        }
        Command::Audit { book, target, cert } => {
            write!(
                report,
                "audit book {} target {} cert {}\n",
                book.text(),
                target.text(),
                cert.text()
            )?;
        }
        Command::Replay {
            pattern,
            generations,
        } => write!(
            report,
            "replay pattern {} generations {generations}\n",
            pattern.text()
        )?,
        Command::Sample { count, gap } => write!(report, "sample count {count} gap {gap}\n")?,
    }
    Ok(())
}
