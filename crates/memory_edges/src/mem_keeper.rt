//! A keeper in memory.

ghost use Rattle.std.specs.Prelude.{◌≡◌, IfOk, OnOk, OnErr};
ghost use Rattle.std.specs.FinMap.{put};
ghost use Rattle.edge_traits.specs.Pairs.{IsAscending, keys_order};
ghost use Rattle.memory_edges.specs.Shelf.{IsPlace, pairs_without};

use crate::fault_plan::FaultPlan;
use edge_traits::{CallLog, Keeper, KeeperFail, Kept, Pair, Request};
use memory::{Duplicate, NoMemory};
use std::alloc::Global;
use std::cmp::Ordering;
use std::marker::Model;

/// A keeper whose table lies in memory, and which fails at the calls that it is told. A change that failed left the
/// table as before.
#[derive(Drop)]
pub struct MemKeeper {
    pairs: Vec<Pair>,
    plan: FaultPlan,
    calls: CallLog,
}

impl Model for MemKeeper {
    ghost use Rattle.edge_traits.specs.Pairs.{IsAscending};
    ghost use Rattle.memory_edges.specs.Shelf.{Shelf};

    ghost Value = { Shelf };

    ghost view = { λ keeper. record {
      pairs = keeper.pairs.items;
      plan = keeper.plan;
      calls = keeper.calls;
    } };

    ghost invariant = { λ keeper. IsAscending keeper.pairs.items };
}

/// Where a key stands among sorted pairs, or would stand.
#[derive(Clone, Copy)]
pub enum KeyPlace {
    /// At this index.
    At(usize),
    /// Nowhere; the pairs from this index on have greater keys.
    Gap(usize),
}

impl MemKeeper {
    ghost use Rattle.std.specs.Prelude.{◌≡◌, []};
    ghost use Rattle.edge_traits.specs.Pairs.{IsAscending};
    ghost use Rattle.memory_edges.specs.Shelf.{Shelf};

    /// A keeper with an empty table; `fails` are the numbers of the calls that fail, from 0.
    pub fn new(alloc: Global, fails: Vec<u64>) -> MemKeeper
        ensures { result ≡ record {
          pairs = [];
          plan = record { fails = fails.items; calls = 0; faults = 0 };
          calls = [];
        } }
    {
        MemKeeper {
            pairs: Vec::new(alloc),
            plan: FaultPlan::new(fails),
            calls: CallLog::new(),
        }
    }

    /// The pairs of the table, in ascending order of key.
    pub fn pairs(&self) -> &[Pair]
        ensures pairs { result.now ≡ self.now.pairs }
        ensures ascending { IsAscending self.now.pairs }
    {
        self.pairs.as_slice()
    }
}

impl Keeper for MemKeeper {
    ghost use Rattle.std.specs.Prelude.{◌≡◌, ◌≢◌, ◌≤◌, ◌↔◌, Some, IfOk, Err};
    ghost use Rattle.std.specs.FinMap as map;
    ghost use Rattle.edge_traits.specs.Calls.{load_answer, noted};
    ghost use Rattle.edge_traits.specs.Faults.{Rose};
    ghost use Rattle.memory_edges.specs.Plan.{IsToFail, after_call};
    ghost use Rattle.edge_traits.specs.Pairs.{IsAscending};
    ghost use Rattle.edge_traits.specs.Keeper.{HasPut, HasRemoved, AreAllOf, Stays, OnKeepFailed, OnLoadFailed};
    ghost use Rattle.edge_traits.specs.Answers.{keep_failed, load_failed};

    ghost table = { λ keeper. Some (map.from_sorted keeper.pairs) };

    ghost faults = { λ keeper. keeper.plan.faults };

    ghost calls = { λ keeper. keeper.calls };

    fn put(&mut self, key: &[u8], bytes: &[u8]) -> Kept
        ensures put { HasPut (Some (map.from_sorted self.old.pairs))
            (Some (map.from_sorted self.new.pairs)) key.now bytes.now result }
        ensures cause { OnKeepFailed result (Rose self.old.plan.faults self.new.plan.faults) }
        ensures counted { self.old.plan.faults ≤ self.new.plan.faults }
        ensures noted { self.new.calls ≡ noted self.old.calls Request.Put result }
        ensures failed { (result ≡ Kept.Failed) ↔ IsToFail self.old.plan }
        ensures undone { result ≡ Kept.Failed → self.new.pairs ≡ self.old.pairs }
        ensures plan { self.new.plan ≡ after_call self.old.plan (keep_failed result) }
    {
        if self.plan.is_to_fail() {
            return self.calls.note(Request::Put, Kept::Failed);
        }
        let Ok(()) = put_pair(&mut self.pairs, key, bytes) else {
            return self.calls.note(Request::Put, Kept::Memory);
        };
        self.calls.note(Request::Put, Kept::Done)
    }

    /// Takes no memory.
    fn remove(&mut self, key: &[u8]) -> Kept
        ensures removed { HasRemoved (Some (map.from_sorted self.old.pairs))
            (Some (map.from_sorted self.new.pairs)) key.now result }
        ensures cause { OnKeepFailed result (Rose self.old.plan.faults self.new.plan.faults) }
        ensures counted { self.old.plan.faults ≤ self.new.plan.faults }
        ensures noted { self.new.calls ≡ noted self.old.calls Request.Remove result }
        ensures failed { (result ≡ Kept.Failed) ↔ IsToFail self.old.plan }
        ensures undone { result ≡ Kept.Failed → self.new.pairs ≡ self.old.pairs }
        ensures no_memory { result ≢ Kept.Memory }
        ensures plan { self.new.plan ≡ after_call self.old.plan (keep_failed result) }
    {
        if self.plan.is_to_fail() {
            return self.calls.note(Request::Remove, Kept::Failed);
        }
        remove_pair(&mut self.pairs, key);
        self.calls.note(Request::Remove, Kept::Done)
    }

    fn load(&mut self) -> Result<Vec<Pair>, KeeperFail>
        ensures all { IfOk result (λ pairs. AreAllOf (Some (map.from_sorted self.old.pairs)) pairs.items) }
        ensures ascending { IfOk result (λ pairs. IsAscending pairs.items) }
        ensures unchanged { Stays (Some (map.from_sorted self.old.pairs)) (Some (map.from_sorted self.new.pairs)) }
        ensures cause { OnLoadFailed result (Rose self.old.plan.faults self.new.plan.faults) }
        ensures counted { self.old.plan.faults ≤ self.new.plan.faults }
        ensures noted { self.new.calls ≡ noted self.old.calls Request.Load (load_answer result) }
        ensures failed { (result ≡ Err KeeperFail.Failed) ↔ IsToFail self.old.plan }
        ensures plan { self.new.plan ≡ after_call self.old.plan (load_failed result) }
        ensures pairs { self.new.pairs ≡ self.old.pairs }
    {
        if self.plan.is_to_fail() {
            self.calls.note(Request::Load, Kept::Failed);
            return Err(KeeperFail::Failed);
        }
        let Ok(copies) = copies_of(*self.pairs.allocator(), self.pairs.as_slice()) else {
            self.calls.note(Request::Load, Kept::Memory);
            return Err(KeeperFail::Memory);
        };
        self.calls.note(Request::Load, Kept::Done);
        Ok(copies)
    }
}

/// Puts the record under the key, in place of the one that is there; when out of memory the pairs are as before.
fn put_pair(pairs: &mut Vec<Pair>, key: &[u8], bytes: &[u8]) -> Result<(), NoMemory>
    requires { IsAscending pairs.old.items }
    ensures put { OnOk result (pairs.new.items ≡ put keys_order key.now bytes.now pairs.old.items) }
    ensures unchanged { OnErr result (pairs.new.items ≡ pairs.old.items) }
{
    let pair = Pair::of(*pairs.allocator(), key, bytes)?;
    match find_place(pairs, key) {
        KeyPlace::At(i) => pairs[i] = pair,
        KeyPlace::Gap(i) => pairs.insert(i, pair)?,
    }
    Ok(())
}

/// Takes away the record under the key, if there is one.
fn remove_pair(pairs: &mut Vec<Pair>, key: &[u8])
    requires { IsAscending pairs.old.items }
    ensures { pairs.new.items ≡ pairs_without key.now pairs.old.items }
{
    if let KeyPlace::At(i) = find_place(pairs, key) {
        pairs.remove(i);
    }
}

/// Finds the place of a key among pairs in ascending order.
fn find_place(pairs: &[Pair], key: &[u8]) -> KeyPlace
    requires { IsAscending pairs.now }
    ensures { IsPlace pairs.now key.now result }
{
    for (i, pair) in pairs.iter().enumerate() {
        match key_order(key, pair) {
            Ordering::Less => return KeyPlace::Gap(i),
            Ordering::Equal => return KeyPlace::At(i),
            Ordering::Greater => {}
        }
    }
    KeyPlace::Gap(pairs.len())
}

/// How the key compares with that of the pair.
fn key_order(key: &[u8], pair: &Pair) -> Ordering
    ensures { result ≡ keys_order key.now pair.now.0 }
{
    key.cmp(pair.key.as_slice())
}

/// Copies of the pairs, in their order.
fn copies_of(alloc: Global, pairs: &[Pair]) -> Result<Vec<Pair>, NoMemory>
    ensures { IfOk result (λ copies. copies.items ≡ pairs.now) }
{
    let mut copies = Vec::with_capacity(alloc, pairs.len())?;
    for pair in pairs {
        copies.push_reserved(pair.duplicate()?);
    }
    Ok(copies)
}
