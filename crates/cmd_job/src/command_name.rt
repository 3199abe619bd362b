//! The commands, as they are called.

ghost use Rattle.std.specs.Prelude.{◌≡◌, ◌≢◌, IfSome, IfNone};
ghost use Rattle.cmd_job.specs.Options.{takes};
ghost use Rattle.cmd_job.specs.Jobs.{called_text};

use crate::options::JobOption;

/// What the first word behind the program's name names.
#[derive(Clone, Copy)]
pub enum CommandName {
    /// `board`
    Board,
    /// `replay`
    Replay,
    /// `tourney`
    Tourney,
    /// `tidy`
    Tidy,
    /// `bot`
    Bot,
    /// `demo`
    Demo,
    /// `check`
    Check,
    /// `pgn`
    Pgn,
    /// `examine`
    Examine,
    /// `serve`
    Serve,
}

/// The command that is called so.
pub(crate) fn command_named(word: &str) -> Option<CommandName>
    ensures some { IfSome result (λ name. word.now ≡ called_text name) }
    ensures none { IfNone result ((name : CommandName) → word.now ≢ called_text name) }
{
    if word == "board" {
        return Some(CommandName::Board);
    }
    if word == "replay" {
        return Some(CommandName::Replay);
    }
    if word == "tourney" {
        return Some(CommandName::Tourney);
    }
    if word == "tidy" {
        return Some(CommandName::Tidy);
    }
    if word == "bot" {
        return Some(CommandName::Bot);
    }
    if word == "demo" {
        return Some(CommandName::Demo);
    }
    if word == "check" {
        return Some(CommandName::Check);
    }
    if word == "pgn" {
        return Some(CommandName::Pgn);
    }
    if word == "examine" {
        return Some(CommandName::Examine);
    }
    if word == "serve" {
        return Some(CommandName::Serve);
    }
    None
}

/// Whether a command may have an option.
pub(crate) fn takes(command: CommandName, option: JobOption) -> bool
    ensures { result ≡ takes command option }
{
    match command {
        CommandName::Check | CommandName::Pgn => matches!(option, JobOption::Store),
        CommandName::Examine => matches!(option, JobOption::Store | JobOption::Game),
        CommandName::Serve => !matches!(option, JobOption::Game),
        _ => false,
    }
}
