//! What the words ask for.

ghost use Rattle.std.specs.Prelude.{◌≤◌};

use crate::deeds::{Deed, deed_of};

/// Where the acts are made.
#[derive(Clone, Copy, Debug, PartialEq, Eq)]
pub enum Place {
    /// At the server of one thread.
    Server,
    /// At a hall, each thread at desks of its own.
    Apart,
    /// At a hall, all threads at desk 1.
    Same,
}

/// What is done in a round at a table.
#[derive(Clone, Copy, Debug, PartialEq, Eq)]
pub enum What {
    /// Each player calls the flag, which hasn't fallen, and asks for news: four acts.
    Looks,
    /// Each player moves a knight out or back: two acts, of which 1,200 a game are played.
    Moves,
}

/// What is to be done.
#[derive(Clone, Copy, Debug)]
pub struct Job {
    pub place: Place,
    pub what: What,
    /// How many threads. The server of one thread makes the acts of all of them in turn.
    pub threads: u8,
    /// How many tables each thread has.
    pub tables: u8,
    /// How many rounds are made at each table.
    pub rounds: u32,
}

impl Job {
    /// How many tables all threads have, at most 128: those behind the 128th aren't there.
    pub fn total(&self) -> u8
        ensures { result ≤ 128 }
    {
        let total = self.threads.saturating_mul(self.tables);
        if total > 128 { 128 } else { total }
    }
}

/// The job of these words, if they name one.
pub fn job_of(words: &[String]) -> Option<Job> {
    if words.len() != 5 {
        return None;
    }
    Some(Job {
        place: place_of(words[0].as_str())?,
        what: what_of(words[1].as_str())?,
        threads: words[2].as_str().parse::<u8>().ok()?,
        tables: words[3].as_str().parse::<u8>().ok()?,
        rounds: words[4].as_str().parse::<u32>().ok()?,
    })
}

/// The deed in a full hall of these words, and how often it is done, if they name one.
pub fn full_job_of(words: &[String]) -> Option<(Deed, u32)> {
    if words.len() != 3 || words[0].as_str() != "full" {
        return None;
    }
    let deed = deed_of(words[1].as_str())?;
    let rounds = words[2].as_str().parse::<u32>().ok()?;
    Some((deed, rounds))
}

fn place_of(word: &str) -> Option<Place> {
    if word == "server" {
        return Some(Place::Server);
    }
    if word == "apart" {
        return Some(Place::Apart);
    }
    if word == "same" {
        return Some(Place::Same);
    }
    None
}

fn what_of(word: &str) -> Option<What> {
    if word == "looks" {
        return Some(What::Looks);
    }
    if word == "moves" {
        return Some(What::Moves);
    }
    None
}
