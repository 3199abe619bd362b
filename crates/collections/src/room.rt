//! A list with room for a fixed number of items.
ghost use Rattle.std.specs.Prelude.{◌≡◌, ◌-◌, ◌<◌, ◌≤◌, ◌↔◌, [], ◌∷◌, ◌++◌, length, map, take, IsTrue, IsNone, IfOk, Some, OnOk, OnErr, slice_get, slice_set};
ghost use Rattle.std.specs.List.{filter, remove};
ghost use Rattle.std.specs.Option.{option_to_list};
ghost use Rattle.std.specs.Borrow.{sem};
ghost use Rattle.std.specs.Cmp.Lexicographic.{pointwise, lists_per, lists_equiv};

use crate::changes::{self, Change};
use crate::copies::duplicates;
use crate::list::Listed;
use crate::predicates::Predicate;
use memory::{Duplicate, NoMemory};
use std::alloc::Global;
use std::marker::Model;
use std::mem;
use std::ops::DerefSlice;

/// A list of at most `N` items, which contracts see as that list. Its room is taken when it is made, and kept.
#[derive(Debug, Drop)]
pub struct Roomy<T, const N: usize> {
    items: Vec<T>,
}

impl<T, const N: usize> Model for Roomy<T, N> {
    ghost use Rattle.std.specs.Prelude.{◌≤◌, List, vec_capacity};
    ghost use Rattle.std.specs.Vec.{vec_len};

    ghost Value = { List T };

    ghost view = { λ roomy. roomy.items.items };

    ghost invariant = { λ roomy. record {
      within : vec_len roomy.items ≤ N;
      room : N ≤ vec_capacity roomy.items;
    } };
}

impl<T, const N: usize> Roomy<T, N> {
    ghost use Rattle.collections.specs.Lends.{lends_roomy_item};

    /// The empty list, with its room. It fails only when out of memory.
    pub fn new(alloc: Global) -> Result<Self, NoMemory>
        ensures { IfOk result (λ roomy. roomy ≡ []) }
    {
        Ok(Roomy {
            items: Vec::with_capacity(alloc, N)?,
        })
    }

    /// The number of items, which is at most `N`.
    pub fn len(&self) -> usize
        ensures value { result ≡ length self.now }
        ensures within { length self.now ≤ N }
    {
        self.items.len()
    }

    /// Whether there is no item.
    pub fn is_empty(&self) -> bool
        ensures { IsTrue result ↔ (self.now ≡ []) }
    {
        self.items.is_empty()
    }

    /// Whether there is no room for one more.
    pub fn is_full(&self) -> bool
        ensures full { IsTrue result ↔ (length self.now ≡ N) }
        ensures within { length self.now ≤ N }
    {
        self.items.len() == N
    }

    /// The items, for std's methods on slices.
    pub fn as_slice(&self) -> &[T]
        ensures items { result.now ≡ self.now }
        ensures within { length self.now ≤ N }
    {
        self.items.as_slice()
    }

    /// The item at `place`, to be changed. No other item changes.
    pub fn item_mut(&mut self, place: usize) -> &mut T
        requires { place < length self.old }
        ensures* writes_back { sem 𝓛 (lends_roomy_item T.row N.row self.entry place result) }
        ensures value { slice_get self.old place ≡ Some result.now }
        ensures rewritten { slice_set self.old place result.now ≡ self.old }
    {
        &mut self.items[place]
    }

    /// Puts `item` behind the others, and takes no memory.
    pub fn push(&mut self, item: T)
        requires { length self.old < N }
        ensures { self.new ≡ self.old ++ item ∷ [] }
    {
        self.items.push_reserved(item);
    }

    /// Takes out the last item, if there is one.
    pub fn pop(&mut self) -> Option<T>
        ensures last { self.old ≡ self.new ++ option_to_list result }
        ensures rest { self.new ≡ take (length self.old - 1) self.old }
        ensures none { IsNone result ↔ (self.old ≡ []) }
    {
        self.items.pop()
    }

    /// Takes out the item at `place`, and moves the later ones down.
    pub fn remove(&mut self, place: usize) -> T
        requires { place < length self.old }
        ensures removed { slice_get self.old place ≡ Some result }
        ensures rest { self.new ≡ remove self.old place }
    {
        self.items.remove(place)
    }

    /// Takes all items out, and leaves the empty list with its room. Running out of memory leaves the list as it is.
    pub fn take(&mut self) -> Result<Listed<T>, NoMemory>
        ensures taken { IfOk result (λ items. items ≡ self.old) }
        ensures emptied { OnOk result (self.new ≡ []) }
        ensures err { OnErr result (self.new ≡ self.old) }
    {
        let alloc = *self.items.allocator();
        let room = Vec::with_capacity(alloc, N)?;
        Ok(Listed::of(mem::replace(&mut self.items, room)))
    }
}

impl<T: Drop, const N: usize> Roomy<T, N> {
    /// Keeps the first `count` items, or all where there are no more.
    pub fn truncate(&mut self, count: usize)
        ensures { self.new ≡ take count self.old }
    {
        self.items.truncate(count);
    }

    /// Keeps the items that pass `test`, in their order.
    pub fn retain<P: Predicate<T>>(&mut self, test: &P)
        ensures { self.new ≡ filter (P.passes test.now) self.old }
    {
        changes::retain(&mut self.items, test);
    }

    /// Changes each item.
    pub fn change_each<C: Change<T>>(&mut self, change: &C)
        ensures { self.new ≡ map (C.changed change.now) self.old }
    {
        changes::change_each(&mut self.items, change);
    }
}

impl<T: Duplicate + Drop, const N: usize> Duplicate for Roomy<T, N> {
    fn duplicate(&self) -> Result<Self, NoMemory> {
        let alloc = *self.items.allocator();
        let items = duplicates(alloc, self.items.as_slice(), N)?;
        Ok(Roomy { items })
    }
}

impl<T, const N: usize> DerefSlice for Roomy<T, N> {
    type Elem = T;

    ghost deref_gives = { λ roomy items. (items ≡ roomy) × (length items ≤ N) };

    fn deref(&self) -> &[T] {
        self.as_slice()
    }
}

impl<T: PartialEq, const N: usize> PartialEq for Roomy<T, N> {
    ghost eq = { pointwise T.eq };

    ghost laws = { lists_per T.laws };

    fn eq(&self, other: &Self) -> bool {
        self.as_slice() == other.as_slice()
    }
}

impl<T: Eq, const N: usize> Eq for Roomy<T, N> {
    ghost laws = { lists_equiv T.Eq.laws };
}
