//! A list of rows that are found by a key.
ghost use Rattle.std.specs.Prelude.{◌≡◌, ◌↔◌, ◌<◌, ◌≤◌, Some, slice_get, [], ◌∷◌, ◌++◌, length, not, IsTrue, true, IfOk, None, OnOk, OnErr, option_copied, option_map, remove, drop};
ghost use Rattle.std.specs.Borrow.{sem};
ghost use Rattle.std.specs.Option.{option_copied_mut};
ghost use Rattle.std.specs.List.{filter, find, insert, list_any, position};
ghost use Rattle.tables.specs.Rows.{AreApart, change_first, has_key};
ghost use Rattle.tables.specs.Sifting.{BeginPassing};

use crate::keyed::{Keyed, Parted};
use collections::{Change, Predicate};
use indexmap::IndexMap;
use memory::NoMemory;
use std::alloc::Global;
use std::hash::Hash;
use std::marker::Model;

/// The most rows that are taken out one by one. Where more go, all that stay are put together anew.
const FEW: usize = 4;

/// Rows in an order, each found by its key. Contracts see the list of them.
#[derive(Drop)]
pub struct Table<K: Eq + Hash + Copy, T: Keyed<K>> {
    rows: IndexMap<K, T>,
}

impl<K: Eq + Hash + Copy, T: Keyed<K>> Model for Table<K, T> {
    ghost use Rattle.std.specs.Prelude.{◌≡◌, List};
    ghost use Rattle.std.specs.Map.{values_of};
    ghost use Rattle.tables.specs.Rows.{keyed};

    ghost Value = { List T };

    ghost view = { λ table. values_of table.rows.entries };

    ghost invariant = { λ table. keyed T.key_of (values_of table.rows.entries) ≡ table.rows.entries };
}

impl<K: Eq + Hash + Copy, T: Keyed<K>> Table<K, T> {
    ghost use Rattle.tables.specs.Lends.{lends_part, lends_part_of};

    /// The empty table, which takes no memory.
    pub fn new(alloc: Global) -> Self
        ensures { result ≡ [] }
    {
        Table {
            rows: IndexMap::new(alloc),
        }
    }

    /// The empty table with room for so many rows. It fails only when out of memory.
    pub fn with_room(alloc: Global, room: usize) -> Result<Self, NoMemory>
        ensures { IfOk result (λ table. table ≡ []) }
    {
        Ok(Table {
            rows: IndexMap::with_capacity(alloc, room)?,
        })
    }

    /// The number of rows.
    pub fn len(&self) -> usize
        ensures { result ≡ length self.now }
    {
        self.rows.len()
    }

    /// Whether there is no row.
    pub fn is_empty(&self) -> bool
        ensures { IsTrue result ↔ (self.now ≡ []) }
    {
        self.rows.is_empty()
    }

    /// The rows, in their order. No two have one key.
    pub fn as_slice(&self) -> &[T]
        ensures rows { result.now ≡ self.now }
        ensures apart { AreApart K.eq T.key_of self.now }
    {
        // The length is what says that no two keys are equal.
        let _len = self.rows.len();
        self.rows.values().as_slice()
    }

    /// Whether a row has this key.
    pub fn has(&self, key: K) -> bool
        ensures { result ≡ list_any (has_key T.key_of K.eq key) self.now }
    {
        self.rows.contains_key(&key)
    }

    /// The row with this key, if there is one.
    pub fn get(&self, key: K) -> Option<&T>
        ensures { option_copied result ≡ find (has_key T.key_of K.eq key) self.now }
    {
        self.rows.get(&key)
    }

    /// A part of the row at `place`, to be changed. No other row changes, and no key.
    pub fn part_mut<P, W>(&mut self, place: usize) -> &mut P
    where
        T: Parted<P, W>,
        requires within { place < length self.old }
        requires keeps { (row : T) (part : P) → T.key_of (T.with_part row part) ≡ T.key_of row }
        ensures* writes_back { sem 𝓛 (lends_part K.row T.row P.row K.Hash T.Keyed T.with_part self.entry place result) }
        ensures value { (row : T) → slice_get self.old place ≡ Some row → result.now ≡ T.part row }
    {
        let row = &mut self.rows[place];
        Parted::<P, W>::part_mut(row)
    }

    /// A part of the row with this key, to be changed, if there is one. No other row changes, and no key.
    pub fn part_of_mut<P, W>(&mut self, key: K) -> Option<&mut P>
    where
        T: Parted<P, W>,
        requires keeps { (row : T) (part : P) → T.key_of (T.with_part row part) ≡ T.key_of row }
        ensures* writes_back { sem 𝓛 (lends_part_of K.row T.row P.row K.Hash T.Keyed T.with_part self.entry
            (has_key T.key_of K.eq key) result) }
        ensures value { option_copied_mut result ≡ option_map T.part (find (has_key T.key_of K.eq key) self.old) }
    {
        match self.place(key) {
            Some(place) => Some(self.part_mut::<P, W>(place)),
            None => None,
        }
    }

    /// The place of the row with this key, counted from 0, if there is one.
    pub fn place(&self, key: K) -> Option<usize>
        ensures { result ≡ position (has_key T.key_of K.eq key) self.now }
    {
        self.rows.get_index_of(&key)
    }
}

impl<K: Eq + Hash + Copy + Drop, T: Keyed<K> + Drop> Table<K, T> {
    /// Puts a row with a new key before the one at `place`, or last. Running out of memory leaves the table as it is.
    pub fn insert(&mut self, place: usize, row: T) -> Result<(), NoMemory>
        requires within { place ≤ length self.old }
        requires new { find (has_key T.key_of K.eq (T.key_of row)) self.old ≡ None }
        ensures ok { OnOk result (self.new ≡ insert self.old place row) }
        ensures err { OnErr result (self.new ≡ self.old) }
    {
        self.rows.shift_insert(place, row.key(), row)?;
        Ok(())
    }

    /// Puts a row with a new key behind the others. Running out of memory leaves the table as it is.
    pub fn push(&mut self, row: T) -> Result<(), NoMemory>
        requires { find (has_key T.key_of K.eq (T.key_of row)) self.old ≡ None }
        ensures ok { OnOk result (self.new ≡ self.old ++ row ∷ []) }
        ensures err { OnErr result (self.new ≡ self.old) }
    {
        self.rows.insert(row.key(), row)?;
        Ok(())
    }

    /// Puts a row behind the others, in place of the one that has its key, if there is one: then it takes no memory.
    /// Running out of memory leaves the table as it is. Keys that are equal must be one value.
    pub fn put_last(&mut self, row: T) -> Result<(), NoMemory>
        requires { (key other : K) → K.eq key other ≡ true → key ≡ other }
        ensures ok { OnOk result (self.new
            ≡ filter (λ other. not (has_key T.key_of K.eq (T.key_of row) other)) self.old ++ row ∷ []) }
        ensures err { OnErr result (self.new ≡ self.old) }
        ensures new { OnErr result (find (has_key T.key_of K.eq (T.key_of row)) self.old ≡ None) }
    {
        let end = self.rows.len();
        self.rows.insert_before(end, row.key(), row)?;
        Ok(())
    }

    /// Takes out the row with this key, if there is one; the later ones move up.
    pub fn remove(&mut self, key: K) -> Option<T>
        ensures removed { result ≡ find (has_key T.key_of K.eq key) self.old }
        ensures rest { self.new ≡ filter (λ row. not (has_key T.key_of K.eq key row)) self.old }
    {
        self.rows.shift_remove(&key)
    }

    /// Keeps the rows that pass `test`, in their order. Where few go, each row is tested once.
    pub fn retain<P: Predicate<T>>(&mut self, test: &P)
        ensures { self.new ≡ filter (P.passes test.now) self.old }
    {
        self.sift(0, FEW, test);
    }

    // `retain`, where the rows before `place` pass. Up to `few` rows are taken out one by one.
    fn sift<P: Predicate<T>>(&mut self, place: usize, few: usize, test: &P)
        requires { BeginPassing (P.passes test.now) place self.old }
        ensures { self.new ≡ filter (P.passes test.now) self.old }
    {
        let Some(ahead) = failing_ahead(self.as_slice(), place, test) else {
            return;
        };
        if few == 0 {
            self.retain_all(test);
            return;
        }
        let next = place + ahead;
        self.remove_at(next);
        self.sift(next, few - 1, test);
    }

    // Takes out the row at `place`; the later ones move up.
    fn remove_at(&mut self, place: usize)
        ensures { self.new ≡ remove self.old place }
    {
        self.rows.shift_remove_index(place);
    }

    // `retain`, by putting together anew what stays.
    fn retain_all<P: Predicate<T>>(&mut self, test: &P)
        ensures { self.new ≡ filter (P.passes test.now) self.old }
    {
        self.rows.retain(
            |_key: &K, row: &mut T| -> bool
                ensures { (result ≡ P.passes test.entry.now row.old) × (row.new ≡ row.old) }
            { test.passes(row) },
        );
    }

    /// Changes the row with this key, if there is one. The change must leave its key as it is.
    pub fn change<C: Change<T>>(&mut self, key: K, change: &C)
        requires { (row : T) → T.key_of (C.changed change.now row) ≡ T.key_of row }
        ensures { self.new ≡ change_first (has_key T.key_of K.eq key) (C.changed change.now) self.old }
    {
        if let Some(row) = self.rows.get_mut(&key) {
            change.change(row);
        }
    }

    /// Gives the memory back where no row is left.
    pub fn shrink(&mut self)
        ensures { self.new ≡ self.old }
    {
        if self.rows.is_empty() {
            self.rows = IndexMap::new(*self.rows.allocator());
        }
    }
}

// How far behind `from` the first row is that fails `test`, or `None` where all from there on pass.
fn failing_ahead<T, P: Predicate<T>>(rows: &[T], from: usize, test: &P) -> Option<usize>
    requires { from ≤ length rows.now }
    ensures { result ≡ position (λ row. not (P.passes test.now row)) (drop from rows.now) }
{
    first_failing(&rows[from..], test)
}

// The place of the first row that fails `test`, or `None` where all pass.
fn first_failing<T, P: Predicate<T>>(rows: &[T], test: &P) -> Option<usize>
    ensures { result ≡ position (λ row. not (P.passes test.now row)) rows.now }
{
    rows.iter().position(|row| !test.passes(row))
}
