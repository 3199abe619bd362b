//! The options, each with its value.

ghost use Rattle.std.specs.Prelude.{◌≡◌, ◌↔◌, ◌≢◌, ℕ, List, IfSome, IfNone, IsTrue, map, string_bytes};
ghost use Rattle.cmd_job.specs.Options.{BeginsWith, IsCut, IsValue, name_of, takes};

use crate::command_name::{CommandName, takes};

/// What may be said of a command.
#[derive(Clone, Copy)]
pub enum JobOption {
    /// The port.
    Port,
    /// The address.
    Bind,
    /// How many connections.
    Count,
    /// Where the accounts and the games are kept.
    Store,
    /// The number of a stored game.
    Game,
}

/// An option, its value, and the words behind these.
#[derive(Drop)]
pub(crate) struct Given<'a> {
    pub(crate) option: JobOption,
    pub(crate) value: &'a str,
    pub(crate) rest: &'a [String],
}

/// The option of the command that the words begin with: as two words `--name value`, or as one, `--name=value`.
pub(crate) fn first_option(command: CommandName, words: &[String]) -> Option<Given<'_>>
    ensures some { IfSome result (λ g. BeginsWith command (map string_bytes words.now) g.option g.value.now
        (map string_bytes g.rest.now)) }
    ensures none { IfNone result ((option : JobOption) (value : List ℕ) (rest : List (List ℕ))
        → BeginsWith command (map string_bytes words.now) option value rest → ⊥) }
{
    let (first, rest) = words.split_first()?;
    match cut_at_equals(first.as_str()) {
        Some((name, value)) => with_value(option_of(command, name)?, value, rest),
        None => {
            let option = option_of(command, first.as_str())?;
            let (value, rest) = rest.split_first()?;
            with_value(option, value.as_str(), rest)
        }
    }
}

/// An option with this value; none where it may not have it.
fn with_value<'a>(option: JobOption, value: &'a str, rest: &'a [String]) -> Option<Given<'a>>
    ensures some { IfSome result (λ g. (g.option ≡ option) × (g.value.now ≡ value.now) × (g.rest.now ≡ rest.now)
        × IsValue value.now) }
    ensures none { IfNone result (¬ (IsValue value.now)) }
{
    if !is_value(value) {
        return None;
    }
    Some(Given {
        option,
        value,
        rest,
    })
}

/// Whether a value may stand so: it isn't empty and doesn't begin with a dash.
fn is_value(value: &str) -> bool
    ensures { IsTrue result ↔ IsValue value.now }
{
    match value.as_bytes() {
        [] => false,
        [first, ..] => *first != b'-',
    }
}

/// The option of this name, where the command may have it.
fn option_of(command: CommandName, name: &str) -> Option<JobOption>
    ensures some { IfSome result (λ option. (name.now ≡ name_of option) × IsTrue (takes command option)) }
    ensures none { IfNone result ((option : JobOption) → name.now ≡ name_of option → IsTrue (takes command option)
        → ⊥) }
{
    let option = option_named(name)?;
    if !takes(command, option) {
        return None;
    }
    Some(option)
}

/// The option of this name.
fn option_named(name: &str) -> Option<JobOption>
    ensures some { IfSome result (λ option. name.now ≡ name_of option) }
    ensures none { IfNone result ((option : JobOption) → name.now ≢ name_of option) }
{
    if name == "--port" {
        return Some(JobOption::Port);
    }
    if name == "--bind" {
        return Some(JobOption::Bind);
    }
    if name == "--count" {
        return Some(JobOption::Count);
    }
    if name == "--store" {
        return Some(JobOption::Store);
    }
    if name == "--game" {
        return Some(JobOption::Game);
    }
    None
}

/// What stands before the first `=` of a word, and what behind it; none where there is none.
fn cut_at_equals(word: &str) -> Option<(&str, &str)>
    ensures { IsCut word.now result }
{
    word.split_once('=')
}
