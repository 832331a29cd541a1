//! How a run of the program ends.

ghost use Rattle.std.specs.Prelude.{◌≡◌};
ghost use Rattle.life_cli.specs.Statuses.{number_of};
ghost use Rattle.life_cli.specs.declared.status.Status.TheVariants.{Memory};

use book_text::BookError;
use build_plan::PlanError;
use life_cells::NoMemory;
use life_rle::RleError;
use life_target::TargetError;
use life_words::WordsError;
use recipe_book::BookRefusal;
use recipe_find::Full;
use std::alloc::AllocError;

/// Which text is meant.
#[derive(Clone, Copy, Debug, PartialEq, Eq)]
pub enum Which {
    /// The recipe book.
    Book,
    /// The target.
    Target,
    /// The pattern that is replayed.
    Pattern,
}

/// How a run of the program ends.
#[derive(Clone, Copy, Debug, PartialEq, Eq)]
pub enum Status {
    /// All of the text was put.
    Done,
    /// The words are no command; want of memory to read them is `Memory`.
    Words(WordsError),
    /// A text was not fetched: the depot's count of faults rose.
    ReadFault,
    /// A text has more than 2^24 bytes.
    TooLong {
        which: Which,
    },
    /// A pattern's text is not read.
    BadRle {
        which: Which,
        fault: RleError,
    },
    /// The book's text is not read.
    BadBookText(BookError),
    /// The target is refused.
    BadTarget(TargetError),
    /// The book is refused.
    BadBook(BookRefusal),
    /// The book has no plan for the target.
    NoPlan(PlanError),
    /// The stream has more than 2^20 gliders.
    StreamLong {
        /// How many.
        count: u64,
    },
    /// The book has no room for what was found.
    BookFull {
        /// The first of which there are too many, in the order salvos, turns, cells.
        what: Full,
        /// How many there are.
        count: u64,
    },
    /// The text was not put, or not all of it: the sink's count of faults rose.
    WriteFault,
    /// There was no memory.
    Memory,
}

impl Status {
    /// The number that the program ends with.
    pub fn number(&self) -> u8
        ensures { result ≡ number_of self.now }
    {
        match self {
            Status::Done => 0,
            Status::Words(_) => 1,
            Status::ReadFault => 2,
            Status::TooLong { .. } => 3,
            Status::BadRle { .. } | Status::BadBookText(_) => 4,
            Status::BadTarget(_) => 5,
            Status::BadBook(_) => 6,
            Status::NoPlan(_) => 7,
            Status::StreamLong { .. } => 8,
            Status::BookFull { .. } => 10,
            Status::WriteFault => 11,
            Status::Memory => 12,
        }
    }
}

impl From<NoMemory> for Status {
    ghost from_gives = { λ _ status. status ≡ Memory };

    fn from(_: NoMemory) -> Self {
        Status::Memory
    }
}

impl From<AllocError> for Status {
    ghost from_gives = { λ _ status. status ≡ Memory };

    fn from(_: AllocError) -> Self {
        Status::Memory
    }
}
