//! A link in memory.

ghost use Rattle.std.specs.Prelude.{◌≡◌, ◌≢◌};
ghost use Rattle.edge_traits.specs.Link.{Grows, is_ended};

use crate::fault_plan::FaultPlan;
use crate::steps::{LinkStep, Spot, read_step};
use edge_traits::{Heard, Link, Sent};
use std::alloc::Global;
use std::marker::Model;

/// A link that gives known steps and keeps what it is written, and fails at the calls of `read` and `write` that it is
/// told. A failed write leaves nothing behind. Once it is closed it is neither read nor written.
#[derive(Drop)]
pub struct MemLink {
    steps: Vec<LinkStep>,
    at: Spot,
    ended: bool,
    bytes: Vec<u8>,
    closed: bool,
    /// Where the last read began, how much had been written then, and whether the end had been given.
    before: Spot,
    written_before: usize,
    ended_before: bool,
    plan: FaultPlan,
    /// The number under which a door keeps it.
    number: u64,
}

impl Model for MemLink {
    ghost use Rattle.std.specs.Prelude.{◌≤◌, length};
    ghost use Rattle.memory_edges.specs.Wire.{Wire, taken_at, left_at};

    ghost Value = { Wire };

    ghost view = { λ link. record {
      tale = record {
        left = left_at link.steps.items link.at;
        taken = taken_at link.steps.items link.at;
        ended = link.ended;
        written = link.bytes.items;
        closed = link.closed;
        at_read = record {
          taken = length (taken_at link.steps.items link.before);
          written = link.written_before;
          ended = link.ended_before;
        };
      };
      plan = link.plan;
      number = link.number;
    } };

    ghost invariant = { λ link. link.at.step ≤ length link.steps.items };
}

impl MemLink {
    ghost use Rattle.std.specs.Prelude.{◌≡◌};
    ghost use Rattle.edge_traits.specs.Link.{IsFresh};
    ghost use Rattle.memory_edges.specs.Wire.{signs_in};

    /// A link that gives these steps; `fails` are the numbers of the calls of `read` and `write` that fail, from 0.
    /// Takes no memory.
    pub fn new(alloc: Global, steps: Vec<LinkStep>, fails: Vec<u64>) -> MemLink
        ensures left { result.tale.left ≡ signs_in steps.items }
        ensures fresh { IsFresh result.tale }
        ensures plan { result.plan ≡ record { fails = fails.items; calls = 0; faults = 0 } }
    {
        let start = Spot { step: 0, offset: 0 };
        MemLink {
            steps,
            at: start,
            ended: false,
            bytes: Vec::new(alloc),
            closed: false,
            before: start,
            written_before: 0,
            ended_before: false,
            plan: FaultPlan::new(fails),
            number: 0,
        }
    }

    /// What was written.
    pub fn written(&self) -> &[u8]
        ensures { result.now ≡ self.now.tale.written }
    {
        self.bytes.as_slice()
    }

    /// Whether it was closed, so that it is neither read nor written any more.
    pub fn is_closed(&self) -> bool
        ensures { result ≡ self.now.tale.closed }
    {
        self.closed
    }

    /// The number under which a door keeps it.
    pub(crate) fn number(&self) -> u64
        ensures { result ≡ self.now.number }
    {
        self.number
    }

    /// The same link, which a door keeps under this number.
    pub(crate) fn numbered(mut self, number: u64) -> MemLink
        ensures { result ≡ record self { number = number } }
    {
        self.number = number;
        self
    }
}

impl Link for MemLink {
    ghost use Rattle.std.specs.Prelude.{◌≡◌, ◌<◌, ◌≤◌, ◌↔◌, Some, length};
    ghost use Rattle.edge_traits.specs.Faults.{Rose};
    ghost use Rattle.memory_edges.specs.Plan.{IsToFail, after_call};
    ghost use Rattle.edge_traits.specs.Answers.{hear_failed, write_failed};
    ghost use Rattle.edge_traits.specs.Sink.{OnWriteFailed};
    ghost use Rattle.edge_traits.specs.WhereTold.{WhereTold};
    ghost use Rattle.edge_traits.specs.Link.{LinkIsOpen, Reads, Writes, Closes, IfHeard, OnHearFailed};

    ghost tale = { λ link. Some link.tale };

    ghost faults = { λ link. link.plan.faults };

    fn read(&mut self, buf: &mut [u8]) -> Heard
        requires room { 0 < length buf.old }
        requires open { LinkIsOpen (Some self.old.tale) }
        ensures count { IfHeard result (λ n. (0 < n) × (n ≤ length buf.new)) }
        ensures read { WhereTold (Some self.old.tale) (Some self.new.tale) (Reads result buf.new) }
        ensures cause { OnHearFailed result (Rose self.old.plan.faults self.new.plan.faults) }
        ensures counted { self.old.plan.faults ≤ self.new.plan.faults }
        ensures failed { (result ≡ Heard.Failed) ↔ IsToFail self.old.plan }
        ensures plan { self.new.plan ≡ after_call self.old.plan (hear_failed result) }
    {
        self.before = self.at;
        self.written_before = self.bytes.len();
        self.ended_before = self.ended;
        if self.plan.is_to_fail() {
            return Heard::Failed;
        }
        let (heard, at) = read_step(self.steps.as_slice(), self.at, buf);
        self.at = at;
        self.ended = is_ended(heard, self.ended);
        heard
    }

    fn write(&mut self, bytes: &[u8]) -> Sent
        requires open { LinkIsOpen (Some self.old.tale) }
        ensures wrote { WhereTold (Some self.old.tale) (Some self.new.tale) (Writes result bytes.now) }
        ensures cause { OnWriteFailed result (Rose self.old.plan.faults self.new.plan.faults) }
        ensures counted { self.old.plan.faults ≤ self.new.plan.faults }
        ensures failed { (result ≡ Sent.Failed) ↔ IsToFail self.old.plan }
        ensures plan { self.new.plan ≡ after_call self.old.plan (write_failed result) }
    {
        if self.plan.is_to_fail() {
            return Sent::Failed;
        }
        append(&mut self.bytes, bytes)
    }

    fn close(&mut self)
        ensures closed { WhereTold (Some self.old.tale) (Some self.new.tale) Closes }
        ensures faults { self.new.plan.faults ≡ self.old.plan.faults }
        ensures plan { self.new.plan ≡ self.old.plan }
    {
        self.closed = true;
    }
}

/// Whether the end was given, after this answer.
fn is_ended(heard: Heard, before: bool) -> bool
    ensures { result ≡ is_ended heard before }
{
    match heard {
        Heard::End => true,
        _ => before,
    }
}

/// Writes the bytes behind the others; when out of memory none.
fn append(out: &mut Vec<u8>, bytes: &[u8]) -> Sent
    ensures grows { Grows result bytes.now out.old.items out.new.items }
    ensures no_fault { result ≢ Sent.Failed }
{
    match out.extend_from_slice(bytes) {
        Ok(()) => Sent::All,
        Err(_) => Sent::Memory,
    }
}
