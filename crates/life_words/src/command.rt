//! The commands of the program.

use crate::word::Word;

/// A command, with the names of its texts and its numbers.
#[derive(Debug, Drop)]
pub enum Command {
    /// Checks each entry of a book.
    Check {
        /// The book's name.
        book: Word,
    },
    /// Extends a book by what is found among candidates.
    Extend {
        /// The book's name.
        book: Word,
        /// How many candidates are tried.
        budget: u32,
    },
    /// Compiles a target with a book.
    Compile {
        /// The book's name.
        book: Word,
        /// The target's name.
        target: Word,
    },
    /// Writes the certificate of a target's plan.
    Certify {
        /// The book's name.
        book: Word,
        /// The target's name.
        target: Word,
    },
    /// Audits a certificate.
    Audit {
        /// The book's name.
        book: Word,
        /// The target's name.
        target: Word,
        /// The certificate's name.
        cert: Word,
    },
    /// Runs a pattern for some generations.
    Replay {
        /// The pattern's name.
        pattern: Word,
        /// How many generations.
        generations: u32,
    },
    /// Compiles the empty target with a book that two numbers give.
    Sample {
        /// How many kinds the book has.
        count: u32,
        /// How far apart the blocks of a kind are, in cells.
        gap: u32,
    },
}
