//! A list that takes memory as it grows.
ghost use Rattle.std.specs.Prelude.{◌≡◌, ◌-◌, ◌<◌, ◌↔◌, [], ◌∷◌, ◌++◌, length, map, IsTrue, IsNone, Some, OnOk, OnErr, slice_get, slice_set, take};
ghost use Rattle.std.specs.Option.{option_to_list};
ghost use Rattle.std.specs.List.{filter, remove};
ghost use Rattle.std.specs.Borrow.{sem};
ghost use Rattle.std.specs.Cmp.Lexicographic.{pointwise, lists_per, lists_equiv};

use crate::changes::{self, Change};
use crate::copies::duplicates;
use crate::predicates::Predicate;
use memory::{Duplicate, NoMemory};
use std::alloc::Global;
use std::marker::Model;
use std::mem;
use std::ops::DerefSlice;

/// A list of items, which contracts see as that list.
#[derive(Debug, Drop)]
pub struct Listed<T> {
    items: Vec<T>,
}

impl<T> Model for Listed<T> {
    ghost use Rattle.std.specs.Prelude.{List};

    ghost Value = { List T };

    ghost view = { λ listed. listed.items.items };
}

impl<T> Listed<T> {
    ghost use Rattle.collections.specs.Lends.{lends_listed_item};

    /// The empty list, which takes no memory.
    pub fn new(alloc: Global) -> Self
        ensures { result ≡ [] }
    {
        Listed {
            items: Vec::new(alloc),
        }
    }

    /// The list of these items.
    pub(crate) fn of(items: Vec<T>) -> Self
        ensures { result ≡ items.items }
    {
        Listed { items }
    }

    /// The number of items.
    pub fn len(&self) -> usize
        ensures { result ≡ length self.now }
    {
        self.items.len()
    }

    /// Whether there is no item.
    pub fn is_empty(&self) -> bool
        ensures { IsTrue result ↔ (self.now ≡ []) }
    {
        self.items.is_empty()
    }

    /// The items, for std's methods on slices.
    pub fn as_slice(&self) -> &[T]
        ensures { result.now ≡ self.now }
    {
        self.items.as_slice()
    }

    /// The item at `place`, to be changed. No other item changes.
    pub fn item_mut(&mut self, place: usize) -> &mut T
        requires { place < length self.old }
        ensures* writes_back { sem 𝓛 (lends_listed_item T.row self.entry place result) }
        ensures value { slice_get self.old place ≡ Some result.now }
        ensures rewritten { slice_set self.old place result.now ≡ self.old }
    {
        &mut self.items[place]
    }

    /// Takes out the item at `place`, and moves the later ones down.
    pub fn remove(&mut self, place: usize) -> T
        requires { place < length self.old }
        ensures removed { slice_get self.old place ≡ Some result }
        ensures rest { self.new ≡ remove self.old place }
    {
        self.items.remove(place)
    }

    /// Takes out the last item, if there is one.
    pub fn pop(&mut self) -> Option<T>
        ensures last { self.old ≡ self.new ++ option_to_list result }
        ensures rest { self.new ≡ take (length self.old - 1) self.old }
        ensures none { IsNone result ↔ (self.old ≡ []) }
    {
        self.items.pop()
    }

    /// Takes all items out, and leaves the empty list.
    pub fn take(&mut self) -> Self
        ensures taken { result ≡ self.old }
        ensures emptied { self.new ≡ [] }
    {
        let alloc = *self.items.allocator();
        mem::replace(self, Listed::new(alloc))
    }

    /// Moves the items of `other` behind these. Running out of memory leaves both lists as they are.
    pub fn append(&mut self, other: &mut Listed<T>) -> Result<(), NoMemory>
        ensures ok { OnOk result (self.new ≡ self.old ++ other.old) }
        ensures emptied { OnOk result (other.new ≡ []) }
        ensures err { OnErr result (self.new ≡ self.old) }
        ensures other_err { OnErr result (other.new ≡ other.old) }
    {
        self.items.append(&mut other.items)?;
        Ok(())
    }
}

impl<T: Drop> Listed<T> {
    /// Puts `item` behind the others. Running out of memory leaves the list as it is.
    pub fn push(&mut self, item: T) -> Result<(), NoMemory>
        ensures ok { OnOk result (self.new ≡ self.old ++ item ∷ []) }
        ensures err { OnErr result (self.new ≡ self.old) }
    {
        self.items.push(item)?;
        Ok(())
    }

    /// Keeps the first `count` items, or all where there are no more.
    pub fn truncate(&mut self, count: usize)
        ensures { self.new ≡ take count self.old }
    {
        self.items.truncate(count);
    }

    /// Keeps the items that pass `test`, in their order.
    pub fn retain<P: Predicate<T>>(&mut self, test: &P)
        ensures { self.new ≡ filter (P.passes test.now) self.old }
    {
        changes::retain(&mut self.items, test);
    }

    /// Changes each item.
    pub fn change_each<C: Change<T>>(&mut self, change: &C)
        ensures { self.new ≡ map (C.changed change.now) self.old }
    {
        changes::change_each(&mut self.items, change);
    }
}

impl<T: Duplicate + Drop> Duplicate for Listed<T> {
    fn duplicate(&self) -> Result<Self, NoMemory> {
        let alloc = *self.items.allocator();
        let items = duplicates(alloc, self.items.as_slice(), self.items.len())?;
        Ok(Listed { items })
    }
}

impl<T> DerefSlice for Listed<T> {
    type Elem = T;

    ghost deref_gives = { λ listed items. items ≡ listed };

    fn deref(&self) -> &[T] {
        self.as_slice()
    }
}

impl<T: PartialEq> PartialEq for Listed<T> {
    ghost eq = { pointwise T.eq };

    ghost laws = { lists_per T.laws };

    fn eq(&self, other: &Self) -> bool {
        self.as_slice() == other.as_slice()
    }
}

impl<T: Eq> Eq for Listed<T> {
    ghost laws = { lists_equiv T.Eq.laws };
}
