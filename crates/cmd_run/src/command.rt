//! Which command the words name.

ghost use Rattle.std.specs.Prelude.{◌≡◌, IfOk, IfErr};
ghost use Rattle.cmd_job.specs.Jobs.{OnUsage};
ghost use Rattle.cmd_run.specs.Words.{IsCommand, IsWithin, NamesCommand, command_of_job};

use cmd_job::{Job, JobFail, read_job};
use std::alloc::Global;

/// A command of `run`.
#[derive(Clone, Copy, Debug, PartialEq, Eq)]
pub enum RunCommand {
    /// Reads move words, one a line, and answers each.
    Board,
    /// Reads a script of an evening, and writes its transcript.
    Replay,
    /// Reads the lines of a round robin, and answers each.
    Tourney,
    /// Reads PGN text, and writes its games in the export form.
    Tidy,
    /// Answers the position that lines of half-moves make with its best move.
    Bot {
        /// How many half-moves are looked ahead, from 0 to 4.
        depth: u8,
    },
    /// Makes an evening from a number, and tells its counts; reads nothing.
    Demo {
        /// The number, from 0 to 999,999.
        number: u32,
    },
    /// Loads the store, and tells how many accounts and games it holds; reads nothing else.
    Check,
    /// Loads the store, and writes its chess games as PGN; reads nothing else.
    Pgn,
    /// Loads the store, and goes through one of its games by the lines that it reads.
    Examine {
        /// The number of the game, from 1 on.
        game: u64,
    },
}

/// Reads the words. Those of a job that isn't done here are `Usage` too.
#[tactic(auto, using(crate::proofs::Named::on_fail))]
pub(crate) fn read_command(alloc: Global, words: &[String]) -> Result<RunCommand, JobFail>
    ensures command { IfOk result (NamesCommand words.now) }
    ensures within { IfOk result IsWithin }
    ensures usage { IfErr result (λ fail. OnUsage fail (¬ (IsCommand words.now))) }
{
    match read_job(alloc, words) {
        Ok(job) => match command_of(&job) {
            Some(command) => Ok(command),
            None => Err(JobFail::Usage),
        },
        Err(fail) => Err(fail),
    }
}

/// The command that is run for a job; none where it isn't done here.
fn command_of(job: &Job) -> Option<RunCommand>
    ensures { result ≡ command_of_job job.now }
{
    match job {
        Job::Board => Some(RunCommand::Board),
        Job::Replay => Some(RunCommand::Replay),
        Job::Tourney => Some(RunCommand::Tourney),
        Job::Tidy => Some(RunCommand::Tidy),
        Job::Bot { depth } => Some(RunCommand::Bot { depth: *depth }),
        Job::Demo { number } => Some(RunCommand::Demo { number: *number }),
        Job::Check { .. } => Some(RunCommand::Check),
        Job::Pgn { .. } => Some(RunCommand::Pgn),
        Job::Examine { game, .. } => Some(RunCommand::Examine { game: *game }),
        _ => None,
    }
}
