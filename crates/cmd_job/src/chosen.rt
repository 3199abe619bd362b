//! The values that the words give the options.

ghost use Rattle.std.specs.Prelude.{◌≡◌, ◌≢◌, Some, None, MatchBool, option_copied};
ghost use Rattle.cmd_job.specs.Options.{Chosen, chosen_of, nothing_chosen, with_chosen};

use crate::options::JobOption;
use std::marker::Model;

/// The value of each option, where it was given.
#[derive(Drop)]
pub(crate) struct Values<'a> {
    port: Option<&'a str>,
    bind: Option<&'a str>,
    count: Option<&'a str>,
    store: Option<&'a str>,
    game: Option<&'a str>,
}

impl<'a> Model for Values<'a> {
    ghost use Rattle.std.specs.Prelude.{option_copied};
    ghost use Rattle.cmd_job.specs.Options.{Chosen};

    ghost Value = { Chosen };

    ghost view = { λ values. record {
      port = option_copied values.port;
      bind = option_copied values.bind;
      count = option_copied values.count;
      store = option_copied values.store;
      game = option_copied values.game;
    } };
}

impl<'a> Values<'a> {
    ghost use Rattle.std.specs.Prelude.{option_copied};

    /// No option was given.
    pub(crate) fn new() -> Values<'a>
        ensures { result ≡ nothing_chosen }
    {
        Values {
            port: None,
            bind: None,
            count: None,
            store: None,
            game: None,
        }
    }

    /// Gives an option its value; false where it has one.
    pub(crate) fn add(&mut self, option: JobOption, value: &'a str) -> bool
        ensures { MatchBool result
            ((chosen_of self.old option ≡ None) × (self.new ≡ with_chosen self.old option value.now))
            ((chosen_of self.old option ≢ None) × (self.new ≡ self.old)) }
    {
        match option {
            JobOption::Port => fill(&mut self.port, value),
            JobOption::Bind => fill(&mut self.bind, value),
            JobOption::Count => fill(&mut self.count, value),
            JobOption::Store => fill(&mut self.store, value),
            JobOption::Game => fill(&mut self.game, value),
        }
    }

    /// The value that an option was given.
    pub(crate) fn value(&self, option: JobOption) -> Option<&'a str>
        ensures { option_copied result ≡ chosen_of self.now option }
    {
        match option {
            JobOption::Port => self.port,
            JobOption::Bind => self.bind,
            JobOption::Count => self.count,
            JobOption::Store => self.store,
            JobOption::Game => self.game,
        }
    }
}

/// Puts the value where there is none; false where there is one.
fn fill<'a>(place: &mut Option<&'a str>, value: &'a str) -> bool
    ensures { MatchBool result
        ((option_copied place.old ≡ None) × (option_copied place.new ≡ Some value.now))
        ((option_copied place.old ≢ None) × (place.new ≡ place.old)) }
{
    if place.is_some() {
        return false;
    }
    *place = Some(value);
    true
}
