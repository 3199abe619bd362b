//! What the words ask for, or why they ask for nothing.

ghost use Rattle.std.specs.Prelude.{◌≡◌};
ghost use Rattle.cmd_job.specs.declared.job.JobFail.TheVariants.{Memory};

use std::alloc::{AllocError, AllocFailed};
use thiserror::Error;

/// What the words ask for.
#[derive(Drop)]
pub enum Job {
    /// Reads move words, one a line, and answers each.
    Board,
    /// Reads a script of an evening, and writes its transcript.
    Replay,
    /// Reads the lines of a round robin, and answers each.
    Tourney,
    /// Reads PGN text, and writes its games in the export form.
    Tidy,
    /// Answers the position that lines of half-moves make with its best move.
    Bot {
        /// How many half-moves are looked ahead, from 0 to 4.
        depth: u8,
    },
    /// Makes an evening from a number, and tells its counts.
    Demo {
        /// The number, from 0 to 999,999.
        number: u32,
    },
    /// Loads a store, and tells how many accounts and games it holds.
    Check {
        /// Where the store lies.
        store: String,
    },
    /// Writes the chess games of a store in the export form of PGN text.
    Pgn {
        /// Where the store lies.
        store: String,
    },
    /// Goes through a stored game step by step.
    Examine {
        /// Where the store lies.
        store: String,
        /// The number of the game, from 1 on.
        game: u64,
    },
    /// Serves players who connect.
    Serve {
        /// The port, from 1 on.
        port: u16,
        /// The address at which connections are taken.
        bind: String,
        /// Where the accounts and the games are kept; none where they aren't kept beyond the run.
        store: Option<String>,
        /// How many connections are taken, from 1 to 2^31; none for any number.
        count: Option<u64>,
    },
}

/// Why the words gave no job.
#[derive(Clone, Copy, Debug, PartialEq, Eq, Error)]
pub enum JobFail {
    /// The words name no job.
    #[error("no such command")]
    Usage,
    /// Running out of memory.
    #[error("out of memory")]
    Memory,
}

impl From<AllocError> for JobFail {
    ghost from_gives = { λ _ fail. fail ≡ Memory };

    fn from(_want: AllocError) -> JobFail {
        JobFail::Memory
    }
}

impl<T: Drop> From<AllocFailed<T>> for JobFail {
    ghost from_gives = { λ _ fail. fail ≡ Memory };

    fn from(_want: AllocFailed<T>) -> JobFail {
        JobFail::Memory
    }
}
