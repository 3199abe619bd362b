//! A player's list of names, as those from whom it wants no tells.
ghost use Rattle.std.specs.Prelude.{◌≡◌, bytes_eq, not};

use collections::{Listed, Predicate};
use fics_words::{Fail, HandleKey, Refusal};
use std::alloc::Global;
use std::marker::Model;

/// The most names on a list.
const MOST: usize = 100;

/// Every name but that of this key.
#[derive(Clone, Copy)]
struct Without(HandleKey);

impl Predicate<HandleKey> for Without {
    ghost passes = { λ test name. not (bytes_eq name test.0) };

    fn passes(&self, name: &HandleKey) -> bool {
        *name != self.0
    }
}

/// A list of handles, by their keys. Contracts see the list of these, in the order of adding.
#[derive(Drop)]
pub struct NameList {
    names: Listed<HandleKey>,
}

impl Model for NameList {
    ghost use Rattle.std.specs.Prelude.{List, ℕ};

    ghost Value = { List (List ℕ) };

    ghost view = { λ list. list.names };
}

impl NameList {
    ghost use Rattle.std.specs.Prelude.{◌≡◌, []};
    ghost use Rattle.fics_words.specs.Effect.{Takes, answer_of, state_of};
    ghost use Rattle.channel_feed.specs.NameLists.{adding, is_listed, removing};

    /// No names; takes no memory.
    pub fn new(alloc: Global) -> NameList
        ensures { result ≡ [] }
    {
        NameList {
            names: Listed::new(alloc),
        }
    }

    /// Whether the handle of this key is on the list.
    pub fn has(&self, key: HandleKey) -> bool
        ensures { result ≡ is_listed self.now key }
    {
        self.names.as_slice().contains(&key)
    }

    /// Puts the handle of this key behind the others. Refuses with `OnList` where it is on the list, and else with
    /// `ListFull` where 100 are.
    pub fn add(&mut self, key: HandleKey) -> Result<(), Fail>
        ensures { Takes (adding self.old key) self.old self.new result }
    {
        if self.has(key) {
            return Err(Fail::Refused(Refusal::OnList));
        }
        if self.names.len() >= MOST {
            return Err(Fail::Refused(Refusal::ListFull));
        }
        self.names.push(key)?;
        Ok(())
    }

    /// Takes the handle of this key off the list; takes no memory. Refuses with `NotOnList` where it isn't on it.
    pub fn remove(&mut self, key: HandleKey) -> Result<(), Refusal>
        ensures answer { result ≡ answer_of (removing self.old key) }
        ensures after { self.new ≡ state_of self.old (removing self.old key) }
    {
        if !self.has(key) {
            return Err(Refusal::NotOnList);
        }
        self.names.retain(&Without(key));
        Ok(())
    }
}
