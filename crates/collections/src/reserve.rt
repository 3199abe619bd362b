//! A list that keeps room for a stated number of items more.
ghost use Rattle.std.specs.Prelude.{◌≡◌, ◌-◌, ◌<◌, ◌↔◌, [], ◌∷◌, ◌++◌, length, map, max, take, IsTrue, IsNone, Some, OnOk, OnErr, slice_get, slice_set};
ghost use Rattle.std.specs.List.{filter, remove};
ghost use Rattle.std.specs.Option.{option_to_list};
ghost use Rattle.std.specs.Borrow.{sem};

use crate::changes::{self, Change};
use crate::copies::duplicates;
use crate::list::Listed;
use crate::predicates::Predicate;
use memory::{Duplicate, NoMemory};
use std::alloc::Global;
use std::marker::Model;
use std::mem;
use std::ops::DerefSlice;

/// A list of items with room for some more, which contracts see as `items` and `room`.
///
/// `reserve` is the one call that takes memory. A push takes one place of the room, and what leaves the list gives
/// none back.
#[derive(Debug, Drop)]
pub struct Reserved<T> {
    items: Vec<T>,
    room: usize,
}

impl<T> Model for Reserved<T> {
    ghost use Rattle.std.specs.Prelude.{◌+◌, ◌≤◌, vec_capacity};
    ghost use Rattle.std.specs.Vec.{vec_len};
    ghost use Rattle.collections.specs.ItemsWithRoom.{ItemsWithRoom, items_with_room_code};

    ghost Value = { ItemsWithRoom T };

    ghost coded = { items_with_room_code T.code };

    ghost view = { λ reserved. record { items = reserved.items.items; room = reserved.room } };

    ghost invariant = { λ reserved. vec_len reserved.items + reserved.room ≤ vec_capacity reserved.items };
}

impl<T> Reserved<T> {
    ghost use Rattle.collections.specs.Lends.{lends_reserved_item};

    /// The empty list with no room, which takes no memory.
    pub fn new(alloc: Global) -> Self
        ensures { result ≡ record { items = []; room = 0 } }
    {
        Reserved {
            items: Vec::new(alloc),
            room: 0,
        }
    }

    /// Makes room for `more` items behind those that are there. Running out of memory leaves the list and its room as
    /// they are.
    pub fn reserve(&mut self, more: usize) -> Result<(), NoMemory>
        ensures ok { OnOk result (self.new ≡ record self.old { room = max self.old.room more }) }
        ensures err { OnErr result (self.new ≡ self.old) }
    {
        self.items.reserve(more)?;
        self.room = self.room.max(more);
        Ok(())
    }

    /// How many items can be pushed before the next `reserve`.
    pub fn room(&self) -> usize
        ensures { result ≡ self.now.room }
    {
        self.room
    }

    /// The number of items.
    pub fn len(&self) -> usize
        ensures { result ≡ length self.now.items }
    {
        self.items.len()
    }

    /// Whether there is no item.
    pub fn is_empty(&self) -> bool
        ensures { IsTrue result ↔ (self.now.items ≡ []) }
    {
        self.items.is_empty()
    }

    /// The items, for std's methods on slices.
    pub fn as_slice(&self) -> &[T]
        ensures { result.now ≡ self.now.items }
    {
        self.items.as_slice()
    }

    /// The item at `place`, to be changed. No other item changes.
    pub fn item_mut(&mut self, place: usize) -> &mut T
        requires { place < length self.old.items }
        ensures* writes_back { sem 𝓛 (lends_reserved_item T.row self.entry place result) }
        ensures value { slice_get self.old.items place ≡ Some result.now }
        ensures rewritten { slice_set self.old.items place result.now ≡ self.old.items }
    {
        &mut self.items[place]
    }

    /// Puts `item` behind the others, and takes no memory.
    pub fn push(&mut self, item: T)
        requires { 0 < self.old.room }
        ensures { self.new ≡ record { items = self.old.items ++ item ∷ []; room = self.old.room - 1 } }
    {
        self.items.push_reserved(item);
        self.room -= 1;
    }

    /// Takes out the last item, if there is one.
    pub fn pop(&mut self) -> Option<T>
        ensures last { self.old.items ≡ self.new.items ++ option_to_list result }
        ensures rest { self.new ≡ record self.old { items = take (length self.old.items - 1) self.old.items } }
        ensures none { IsNone result ↔ (self.old.items ≡ []) }
    {
        self.items.pop()
    }

    /// Takes out the item at `place`, and moves the later ones down.
    pub fn remove(&mut self, place: usize) -> T
        requires { place < length self.old.items }
        ensures removed { slice_get self.old.items place ≡ Some result }
        ensures rest { self.new ≡ record self.old { items = remove self.old.items place } }
    {
        self.items.remove(place)
    }

    /// Takes all items out with their block, and leaves the empty list with no room.
    pub fn take(&mut self) -> Listed<T>
        ensures taken { result ≡ self.old.items }
        ensures emptied { self.new ≡ record { items = []; room = 0 } }
    {
        let alloc = *self.items.allocator();
        self.room = 0;
        Listed::of(mem::replace(&mut self.items, Vec::new(alloc)))
    }
}

impl<T: Drop> Reserved<T> {
    /// Keeps the first `count` items, or all where there are no more.
    pub fn truncate(&mut self, count: usize)
        ensures { self.new ≡ record self.old { items = take count self.old.items } }
    {
        self.items.truncate(count);
    }

    /// Keeps the items that pass `test`, in their order.
    pub fn retain<P: Predicate<T>>(&mut self, test: &P)
        ensures { self.new ≡ record self.old { items = filter (P.passes test.now) self.old.items } }
    {
        changes::retain(&mut self.items, test);
    }

    /// Changes each item.
    pub fn change_each<C: Change<T>>(&mut self, change: &C)
        ensures { self.new ≡ record self.old { items = map (C.changed change.now) self.old.items } }
    {
        changes::change_each(&mut self.items, change);
    }
}

impl<T: Duplicate + Drop> Duplicate for Reserved<T> {
    fn duplicate(&self) -> Result<Self, NoMemory> {
        let alloc = *self.items.allocator();
        let capacity = self.items.len() + self.room;
        let items = duplicates(alloc, self.items.as_slice(), capacity)?;
        Ok(Reserved {
            items,
            room: self.room,
        })
    }
}

impl<T> DerefSlice for Reserved<T> {
    type Elem = T;

    ghost deref_gives = { λ reserved items. items ≡ reserved.items };

    fn deref(&self) -> &[T] {
        self.as_slice()
    }
}
