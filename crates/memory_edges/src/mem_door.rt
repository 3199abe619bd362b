//! A door in memory.

ghost use Rattle.std.specs.Prelude.{◌≡◌, MatchOption, Contains, Some};
ghost use Rattle.std.specs.declared.option.Option.{Option};
ghost use Rattle.edge_traits.specs.Link.{Handed, Tale};
ghost use Rattle.memory_edges.specs.MemDoor.{numbered};

use crate::fault_plan::FaultPlan;
use crate::mem_link::MemLink;
use edge_traits::{Answered, Came, Doorway};
use std::marker::Model;
use std::snapshot::Snapshot;

/// A door that gives known links one after another and is then closed, keeps those that are handed back, and fails at
/// the calls of `next` that it is told. It gives no Quiet.
#[derive(Drop)]
pub struct MemDoor {
    /// All the links, as they were when the door was made.
    all: Snapshot<Vec<MemLink>>,
    /// The links to come, in their order, and behind them those that came back.
    links: Vec<MemLink>,
    /// How many are to come, and how many came.
    left: usize,
    came: usize,
    last: Answered,
    plan: FaultPlan,
}

impl Model for MemDoor {
    ghost use Rattle.std.specs.Prelude.{◌≡◌, ◌+◌, ◌≤◌, length, drop, take, vec_capacity};
    ghost use Rattle.memory_edges.specs.MemDoor.{MemDoorState, AreNew, told_by, numbered};

    ghost Value = { MemDoorState };

    ghost view = { λ door. record {
      tale = record {
        left = told_by (take door.left door.links.items);
        came = told_by (take door.came door.all.value.items);
        back = numbered (drop door.left door.links.items);
        quiets = 0;
        last = door.last;
      };
      plan = door.plan;
    } };

    ghost invariant = { λ door. (take door.left door.links.items ≡ drop door.came door.all.value.items)
        × (door.left ≤ length door.links.items)
        × (door.came + door.left ≡ length door.all.value.items)
        × (length door.all.value.items ≤ vec_capacity door.links)
        × AreNew (take door.left door.links.items) };
}

impl MemDoor {
    ghost use Rattle.std.specs.Prelude.{◌≡◌, [], Some};
    ghost use Rattle.memory_edges.specs.MemDoor.{AreNew, told_by};

    /// A door that gives these links, which are new; `fails` are the numbers of the calls of `next` that fail, from 0.
    /// Takes no memory.
    pub fn new(links: Vec<MemLink>, fails: Vec<u64>) -> MemDoor
        requires { AreNew links.items }
        ensures { result ≡ record {
          tale = record {
            left = told_by links.items;
            came = [];
            back = [];
            quiets = 0;
            last = Answered.Nothing;
          };
          plan = record { fails = fails.items; calls = 0; faults = 0 };
        } }
    {
        MemDoor {
            all: Snapshot::of(&links),
            left: links.len(),
            came: 0,
            last: Answered::Nothing,
            links,
            plan: FaultPlan::new(fails),
        }
    }

    /// What the link of this number was written, once it came back; none exactly where it didn't.
    pub fn written(&self, number: u64) -> Option<&[u8]>
        ensures { MatchOption result ((link : Handed) → Contains self.now.tale.back (number, link) → ⊥)
            (λ bytes. (link : Handed) × (tale : Tale) × Contains self.now.tale.back (number, link)
            × (link.tale ≡ Some tale) × (bytes.now ≡ tale.written)) }
    {
        written_in(&self.links.as_slice()[self.left..], number)
    }
}

/// What the first of the links with this number was written.
fn written_in(links: &[MemLink], number: u64) -> Option<&[u8]>
    ensures { MatchOption result ((link : Handed) → Contains (numbered links.now) (number, link) → ⊥)
        (λ bytes. (link : Handed) × (tale : Tale) × Contains (numbered links.now) (number, link)
        × (link.tale ≡ Some tale) × (bytes.now ≡ tale.written)) }
{
    for link in links {
        if link.number() == number {
            return Some(link.written());
        }
    }
    None
}

impl Doorway for MemDoor {
    ghost use Rattle.std.specs.Prelude.{◌≡◌, ◌↔◌, ◌≤◌, Some, IfSome};
    ghost use Rattle.edge_traits.specs.Faults.{Rose};
    ghost use Rattle.memory_edges.specs.Plan.{IsToFail, after_call};
    ghost use Rattle.edge_traits.specs.WhereTold.{WhereTold};
    ghost use Rattle.edge_traits.specs.Door.{DoorGives, IfCame, IsNew, IsOut, TakesBack, OnDoorFailed};
    ghost use Rattle.edge_traits.specs.Answers.{IsQuiet, door_failed};

    type Link = MemLink;

    ghost tale = { λ door. Some door.tale };

    ghost faults = { λ door. door.plan.faults };

    fn next(&mut self) -> Came<MemLink>
        ensures gives { WhereTold (Some self.old.tale) (Some self.new.tale)
            (DoorGives (λ link. Some link.tale) result) }
        ensures fresh { IfCame result (λ link. IsNew link.plan.faults (Some link.tale)) }
        ensures cause { OnDoorFailed result (Rose self.old.plan.faults self.new.plan.faults) }
        ensures counted { self.old.plan.faults ≤ self.new.plan.faults }
        ensures failed { (result ≡ Came.Failed) ↔ IsToFail self.old.plan }
        ensures plan { self.new.plan ≡ after_call self.old.plan (door_failed result) }
        ensures no_quiet { IsQuiet result → ⊥ }
    {
        if self.plan.is_to_fail() {
            self.last = Answered::Failed;
            return Came::Failed;
        }
        if self.left == 0 {
            self.last = Answered::Closed;
            return Came::Closed;
        }
        self.last = Answered::Link;
        self.left -= 1;
        self.came += 1;
        Came::Link(self.links.remove(0))
    }

    fn back(&mut self, number: u64, link: MemLink)
        requires { IfSome (Some self.old.tale) (IsOut number) }
        ensures back { WhereTold (Some self.old.tale) (Some self.new.tale) (TakesBack number (record {
          tale = Some link.tale;
          faults = link.plan.faults;
        })) }
        ensures faults { self.new.plan.faults ≡ self.old.plan.faults }
        ensures plan { self.new.plan ≡ self.old.plan }
    {
        self.links.push_reserved(link.numbered(number));
    }
}
