//! The reading of the words.

ghost use Rattle.std.specs.Prelude.{◌≡◌, ℕ, List, [], Option, IfOk, IfErr, IfSome, IfNone};
ghost use Rattle.std.specs.Prelude.{map, option_copied, option_map, string_bytes};
ghost use Rattle.cmd_job.specs.Jobs.{IsBehind, IsBot, IsDemo, IsExamine, IsOverStore, IsServe, NamesJob, OnUsage};
ghost use Rattle.cmd_job.specs.Options.{Chosen, Says};
ghost use Rattle.cmd_job.specs.declared.command_name.CommandName.{CommandName};
ghost use Rattle.cmd_job.specs.declared.job.Job.{Job};

use crate::chosen::Values;
use crate::command_name::{CommandName, command_named};
use crate::job::{Job, JobFail};
use crate::numbers::{read_count, read_demo_number, read_depth, read_game, read_port};
use crate::options::{JobOption, first_option};
use std::alloc::{AllocError, Global};

/// Where connections are taken where the words don't say it: at this machine alone.
const HOME: &str = "127.0.0.1";

/// Reads the words behind the program's name; `Usage` where they name no job.
pub fn read_job(alloc: Global, words: &[String]) -> Result<Job, JobFail>
    ensures job { IfOk result (NamesJob words.now) }
    ensures usage { IfErr result (λ fail. OnUsage fail ((job : Job) → NamesJob words.now job → ⊥)) }
{
    let Some((first, rest)) = words.split_first() else {
        return Err(JobFail::Usage);
    };
    let Some(command) = command_named(first.as_str()) else {
        return Err(JobFail::Usage);
    };
    read_behind(alloc, command, rest)
}

/// Reads the words behind the name of a command.
fn read_behind(alloc: Global, command: CommandName, words: &[String]) -> Result<Job, JobFail>
    ensures job { IfOk result (IsBehind command (map string_bytes words.now)) }
    ensures usage { IfErr result (λ fail. OnUsage fail
        ((job : Job) → IsBehind command (map string_bytes words.now) job → ⊥)) }
{
    match command {
        CommandName::Board => alone(Job::Board, words),
        CommandName::Replay => alone(Job::Replay, words),
        CommandName::Tourney => alone(Job::Tourney, words),
        CommandName::Tidy => alone(Job::Tidy, words),
        CommandName::Bot => read_bot(words),
        CommandName::Demo => read_demo(words),
        CommandName::Check => read_check(alloc, words),
        CommandName::Pgn => read_pgn(alloc, words),
        CommandName::Examine => read_examine(alloc, words),
        CommandName::Serve => read_serve(alloc, words),
    }
}

/// A job behind whose command nothing stands.
fn alone(job: Job, words: &[String]) -> Result<Job, JobFail>
    ensures job { IfOk result (λ read. (map string_bytes words.now ≡ []) × (read ≡ job)) }
    ensures usage { IfErr result (λ fail. OnUsage fail (map string_bytes words.now ≡ [] → ⊥)) }
{
    if !words.is_empty() {
        return Err(JobFail::Usage);
    }
    Ok(job)
}

/// Reads the word behind `bot`.
fn read_bot(words: &[String]) -> Result<Job, JobFail>
    ensures job { IfOk result (IsBehind CommandName.Bot (map string_bytes words.now)) }
    ensures usage { IfErr result (λ fail. OnUsage fail ((depth : ℕ) → IsBot (map string_bytes words.now) depth → ⊥)) }
{
    let [word] = words else {
        return Err(JobFail::Usage);
    };
    let Some(depth) = read_depth(word.as_str()) else {
        return Err(JobFail::Usage);
    };
    Ok(Job::Bot { depth })
}

/// Reads the word behind `demo`.
fn read_demo(words: &[String]) -> Result<Job, JobFail>
    ensures job { IfOk result (IsBehind CommandName.Demo (map string_bytes words.now)) }
    ensures usage { IfErr result (λ fail.
        OnUsage fail ((number : ℕ) → IsDemo (map string_bytes words.now) number → ⊥)) }
{
    let [word] = words else {
        return Err(JobFail::Usage);
    };
    let Some(number) = read_demo_number(word.as_str()) else {
        return Err(JobFail::Usage);
    };
    Ok(Job::Demo { number })
}

/// Reads the options of `check`.
fn read_check(alloc: Global, words: &[String]) -> Result<Job, JobFail>
    ensures job { IfOk result (IsBehind CommandName.Check (map string_bytes words.now)) }
    ensures usage { IfErr result (λ fail. OnUsage fail
        ((store : List ℕ) → IsOverStore CommandName.Check (map string_bytes words.now) store → ⊥)) }
{
    let store = read_store(alloc, CommandName::Check, words)?;
    Ok(Job::Check { store })
}

/// Reads the options of `pgn`.
fn read_pgn(alloc: Global, words: &[String]) -> Result<Job, JobFail>
    ensures job { IfOk result (IsBehind CommandName.Pgn (map string_bytes words.now)) }
    ensures usage { IfErr result (λ fail. OnUsage fail
        ((store : List ℕ) → IsOverStore CommandName.Pgn (map string_bytes words.now) store → ⊥)) }
{
    let store = read_store(alloc, CommandName::Pgn, words)?;
    Ok(Job::Pgn { store })
}

/// Reads the options of a command that needs a store.
fn read_store(alloc: Global, command: CommandName, words: &[String]) -> Result<String, JobFail>
    ensures store { IfOk result (λ store. IsOverStore command (map string_bytes words.now) (string_bytes store)) }
    ensures usage { IfErr result (λ fail. OnUsage fail
        ((store : List ℕ) → IsOverStore command (map string_bytes words.now) store → ⊥)) }
{
    let Some(values) = read_options(command, words) else {
        return Err(JobFail::Usage);
    };
    let Some(store) = values.value(JobOption::Store) else {
        return Err(JobFail::Usage);
    };
    Ok(String::from_str(alloc, store)?)
}

/// Reads the options of `examine`.
fn read_examine(alloc: Global, words: &[String]) -> Result<Job, JobFail>
    ensures job { IfOk result (IsBehind CommandName.Examine (map string_bytes words.now)) }
    ensures usage { IfErr result (λ fail. OnUsage fail
        ((store : List ℕ) (game : ℕ) → IsExamine (map string_bytes words.now) store game → ⊥)) }
{
    let Some(values) = read_options(CommandName::Examine, words) else {
        return Err(JobFail::Usage);
    };
    let Some(store) = values.value(JobOption::Store) else {
        return Err(JobFail::Usage);
    };
    let Some(game) = read_game(values.value(JobOption::Game)) else {
        return Err(JobFail::Usage);
    };
    let store = String::from_str(alloc, store)?;
    Ok(Job::Examine { store, game })
}

/// Reads the options of `serve`.
fn read_serve(alloc: Global, words: &[String]) -> Result<Job, JobFail>
    ensures job { IfOk result (IsBehind CommandName.Serve (map string_bytes words.now)) }
    ensures usage { IfErr result (λ fail. OnUsage fail
        ((port : ℕ) (bind : List ℕ) (store : Option (List ℕ)) (count : Option ℕ)
        → IsServe (map string_bytes words.now) port bind store count → ⊥)) }
{
    let Some(values) = read_options(CommandName::Serve, words) else {
        return Err(JobFail::Usage);
    };
    let Some(port) = read_port(values.value(JobOption::Port)) else {
        return Err(JobFail::Usage);
    };
    let Some(count) = read_count(values.value(JobOption::Count)) else {
        return Err(JobFail::Usage);
    };
    let bind = String::from_str(alloc, values.value(JobOption::Bind).unwrap_or(HOME))?;
    let store = owned(alloc, values.value(JobOption::Store))?;
    Ok(Job::Serve {
        port,
        bind,
        store,
        count,
    })
}

/// A text of its own, where there is one.
fn owned(alloc: Global, text: Option<&str>) -> Result<Option<String>, AllocError>
    ensures { IfOk result (λ own. option_map string_bytes own ≡ option_copied text.entry) }
{
    match text {
        Some(text) => Ok(Some(String::from_str(alloc, text)?)),
        None => Ok(None),
    }
}

/// Reads options of a command with their values, each at most once.
fn read_options(command: CommandName, words: &[String]) -> Option<Values<'_>>
    ensures some { IfSome result (Says command (map string_bytes words.now)) }
    ensures none { IfNone result ((values : Chosen) → Says command (map string_bytes words.now) values → ⊥) }
{
    let mut values = Values::new();
    let mut rest = words;
    while !rest.is_empty() {
        let Some(given) = first_option(command, rest) else {
            return None;
        };
        if !values.add(given.option, given.value) {
            return None;
        }
        rest = given.rest;
    }
    Some(values)
}
