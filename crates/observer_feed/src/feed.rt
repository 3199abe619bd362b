//! The feed.
ghost use Rattle.std.specs.Option.{option_to_list};
ghost use Rattle.std.specs.Prelude.{◌≡◌, ◌<◌, ◌≤◌, ◌++◌, ◌∷◌, IfOk, OnErr, OnOk, drop, false, length};
ghost use Rattle.fics_words.specs.Effect.{Takes, answer_of, state_of};
ghost use Rattle.observer_feed.specs.Feed.{ahead, with_viewer, empty_feed, fetching, forgotten, is_left, is_viewer, unwatching, watching, with_both, with_item, with_room};

use crate::cursor::{Backlog, CatchUp, Cursor, OfOthers, OfSession};
use collections::{Listed, Reserved, find};
use fics_words::{Fail, Refusal};
use memory::{Duplicate, NoMemory};
use std::alloc::Global;
use std::marker::Model;

/// The items that viewers are told, and the viewers, each with its place. Contracts see the items with the oldest
/// first, the viewers in the order in which they came, and for how many more items there is room that takes no memory.
/// A session has one place at most, and none is behind the last item.
#[derive(Drop)]
pub struct Feed<T> {
    alloc: Global,
    items: Reserved<T>,
    pub(crate) viewers: Listed<Cursor>,
}

impl<T> Model for Feed<T> {
    ghost use Rattle.std.specs.Prelude.{length};
    ghost use Rattle.observer_feed.specs.Feed.{ArePlaces, FeedState};

    ghost Value = { FeedState T };

    ghost view = { λ feed. record {
      items = feed.items.items;
      viewers = feed.viewers;
      room = feed.items.room;
    } };

    ghost invariant = { λ feed. ArePlaces (length feed.items.items) feed.viewers };
}

impl<T> Feed<T> {
    /// No items, no viewers and no room; takes no memory.
    pub fn new(alloc: Global) -> Feed<T>
        ensures { result ≡ empty_feed }
    {
        Feed {
            alloc,
            items: Reserved::new(alloc),
            viewers: Listed::new(alloc),
        }
    }

    /// Makes room for `more` items behind those that are there. Running out of memory changes nothing.
    pub fn reserve(&mut self, more: usize) -> Result<(), NoMemory>
        ensures ok { OnOk result (self.new ≡ with_room more self.old) }
        ensures err { OnErr result (self.new ≡ self.old) }
    {
        self.items.reserve(more)?;
        Ok(())
    }

    /// Puts an item behind the others, which takes one place of the room, and no memory.
    pub fn add(&mut self, item: T)
        requires { 0 < self.old.room }
        ensures { self.new ≡ with_item item self.old }
    {
        self.items.push(item);
    }

    /// The items, the oldest first.
    pub fn items(&self) -> &[T]
        ensures { result.now ≡ self.now.items }
    {
        self.items.as_slice()
    }

    /// How many viewers there are.
    pub fn viewers(&self) -> usize
        ensures { result ≡ length self.now.viewers }
    {
        self.viewers.len()
    }

    /// Whether nobody looks on.
    pub fn is_left(&self) -> bool
        ensures { result ≡ is_left self.now.viewers }
    {
        self.viewers.len() == 0
    }

    /// Whether a session is a viewer.
    pub fn has(&self, session: u32) -> bool
        ensures { result ≡ is_viewer self.now.viewers session }
    {
        find(self.viewers.as_slice(), &OfSession(session)).is_some()
    }

    /// The items that a session hasn't been given yet, none where it is no viewer.
    pub fn ahead(&self, session: u32) -> &[T]
        ensures { result.now ≡ ahead self.now.items self.now.viewers session }
    {
        match find(self.viewers.as_slice(), &OfSession(session)) {
            Some(cursor) => past(self.items.as_slice(), cursor.seen),
            None => &[],
        }
    }

    /// Makes a session a viewer. Refused with `AlreadyWatching`.
    pub fn watch(&mut self, session: u32, told: Backlog) -> Result<(), Fail>
        ensures { Takes (watching self.old session told) self.old self.new result }
    {
        if self.has(session) {
            return Err(Fail::Refused(Refusal::AlreadyWatching));
        }
        self.begin(session, told)?;
        Ok(())
    }

    /// Makes a session a viewer that is none, as `has` tells. Running out of memory changes nothing.
    pub fn begin(&mut self, session: u32, told: Backlog) -> Result<(), NoMemory>
        requires { is_viewer self.old.viewers session ≡ false }
        ensures ok { OnOk result (self.new ≡ with_viewer session told self.old) }
        ensures err { OnErr result (self.new ≡ self.old) }
    {
        let seen = told.first_place(self.items.len());
        self.viewers.push(Cursor { session, seen })?;
        Ok(())
    }

    /// A viewer ceases to be one. Refused with `NotWatching`. Takes no memory.
    pub fn unwatch(&mut self, session: u32) -> Result<(), Refusal>
        ensures answer { result ≡ answer_of (unwatching self.old session) }
        ensures after { self.new ≡ state_of self.old (unwatching self.old session) }
    {
        if !self.has(session) {
            return Err(Refusal::NotWatching);
        }
        self.forget(session);
        Ok(())
    }

    /// A session is no viewer any more; nothing changes where it is none. Takes no memory.
    pub fn forget(&mut self, session: u32)
        ensures { self.new ≡ forgotten session self.old }
    {
        self.viewers.retain(&OfOthers(session));
    }
}

impl<T: Drop> Feed<T> {
    /// Puts what is told of each board of a game behind the other items: of the first one, and where there is one of
    /// the second.
    pub fn add_both(&mut self, first: T, second: Option<T>)
        requires { 2 ≤ self.old.room }
        ensures after { self.new ≡ with_both first second self.old }
        ensures items { self.new.items ≡ self.old.items ++ first ∷ option_to_list second }
        ensures viewers { self.new.viewers ≡ self.old.viewers }
    {
        self.add(first);
        if let Some(second) = second {
            self.add(second);
        }
    }
}

impl<T: Duplicate + Drop> Feed<T> {
    /// Copies of the items that a session hasn't been given yet, none where it is no viewer. Its place stays.
    pub fn copies_ahead(&self, session: u32) -> Result<Listed<T>, NoMemory>
        ensures { IfOk result (λ items. items ≡ ahead self.now.items self.now.viewers session) }
    {
        copied(self.alloc, self.ahead(session))
    }

    /// Gives a viewer copies of the items that it hasn't been given yet: then it has been given all. Refused with
    /// `NotWatching`. A refusal and running out of memory change nothing.
    pub fn since(&mut self, session: u32) -> Result<Listed<T>, Fail>
        ensures { Takes (fetching self.old session) self.old self.new result }
    {
        if !self.has(session) {
            return Err(Fail::Refused(Refusal::NotWatching));
        }
        let items = self.copies_ahead(session)?;
        self.catch_up(session);
        Ok(items)
    }
}

impl<T> Feed<T> {
    ghost use Rattle.observer_feed.specs.Feed.{with_all};

    /// A viewer has been given all items.
    fn catch_up(&mut self, session: u32)
        ensures { self.new ≡ with_all session self.old }
    {
        let seen = self.items.len();
        self.viewers.change_each(&CatchUp { session, seen });
    }
}

/// The items from a place on.
fn past<T>(items: &[T], seen: usize) -> &[T]
    ensures { result.now ≡ drop seen items.now }
{
    if seen < items.len() {
        &items[seen..]
    } else {
        &[]
    }
}

/// Copies of items.
fn copied<T: Duplicate + Drop>(alloc: Global, items: &[T]) -> Result<Listed<T>, NoMemory>
    ensures { IfOk result (λ list. list ≡ items.now) }
{
    let mut list = Listed::new(alloc);
    for item in items {
        list.push(item.duplicate()?)?;
    }
    Ok(list)
}
