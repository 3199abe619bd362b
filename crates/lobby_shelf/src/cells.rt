//! A list whose items lie in cells of their own, so that one that was made beside it is put behind the others without
//! memory.
ghost use Rattle.std.specs.Prelude.{◌≡◌, ◌<◌, ◌^◌, [], ◌∷◌, ◌++◌, IfOk, length, take};
ghost use Rattle.std.specs.List.{filter, list_any};

use collections::{Listed, Predicate};
use memory::{Duplicate, NoMemory};
use std::alloc::Global;
use std::collections::LinkedList;
use std::marker::Model;
use std::mem;

/// The most items to which another is put: their cells would fill all memory that there can be.
const MOST: usize = 1 << 62;

/// A list of items in cells of their own, which contracts see as that list.
pub struct Cells<T> {
    items: LinkedList<T, Global>,
}

impl<T> Model for Cells<T> {
    ghost use Rattle.std.specs.Prelude.{List};

    ghost Value = { List T };

    ghost view = { λ cells. cells.items };
}

impl<T: Drop> Drop for Cells<T> {
    fn drop(self) {
        let Cells { items } = self;
        drop(items);
    }
}

impl<T: Drop> Cells<T> {
    /// The empty list, which takes no memory.
    pub fn new(alloc: Global) -> Cells<T>
        ensures { result ≡ [] }
    {
        Cells {
            items: LinkedList::new(alloc),
        }
    }

    /// A cell with this item, which is to be put behind these. It fails only when out of memory, as with 2^62 items,
    /// whose cells fill all memory that there can be.
    pub(crate) fn cell(&self, item: T) -> Result<Cells<T>, NoMemory>
        ensures holds { IfOk result (λ cell. cell ≡ item ∷ []) }
        ensures room { IfOk result (λ cell. length self.now < 2 ^ 62) }
    {
        if self.items.len() >= MOST {
            return Err(NoMemory);
        }
        let mut items = LinkedList::new(*self.items.allocator());
        items.push_back(item)?;
        Ok(Cells { items })
    }

    /// Puts what stands in the cell behind the others, and takes no memory.
    pub(crate) fn append(&mut self, mut cell: Cells<T>)
        requires few { length self.old < 2 ^ 62 }
        requires one { length cell ≡ 1 }
        ensures { self.new ≡ self.old ++ cell }
    {
        let _room = self.items.append(&mut cell.items);
    }
}

impl<T: Drop> Cells<T> {
    /// Whether one of the items passes `test`.
    pub(crate) fn any<P: Predicate<T>>(&self, test: &P) -> bool
        ensures { result ≡ list_any (P.passes test.now) self.now }
    {
        let mut rest = self.items.iter();
        while let Some(item) = rest.next() {
            if test.passes(item) {
                return true;
            }
        }
        false
    }

    /// Keeps the items that pass `test`, in their order, and takes no memory.
    pub(crate) fn retain<P: Predicate<T>>(&mut self, test: &P)
        ensures { self.new ≡ filter (P.passes test.now) self.old }
    {
        let alloc = *self.items.allocator();
        let count = self.items.len();
        let mut rest = mem::replace(&mut self.items, LinkedList::new(alloc));
        while let Some(item) = rest.front() {
            if test.passes(item) {
                let Ok(tail) = rest.split_off(1) else {
                    return;
                };
                let _room = self.items.append(&mut rest);
                rest = tail;
            } else {
                drop(rest.pop_front());
            }
        }
    }
}

impl<T: Duplicate + Drop> Cells<T> {
    /// Copies of the first items, of which there may be no more than `count`.
    pub(crate) fn first(&self, count: usize) -> Result<Listed<T>, NoMemory>
        ensures { IfOk result (λ copies. copies ≡ take count self.now) }
    {
        let mut copies = Listed::new(*self.items.allocator());
        let mut rest = self.items.iter();
        for _place in 0..count {
            let Some(item) = rest.next() else {
                return Ok(copies);
            };
            copies.push(item.duplicate()?)?;
        }
        Ok(copies)
    }
}
