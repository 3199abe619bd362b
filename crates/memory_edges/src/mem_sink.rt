//! A sink in memory.

use crate::fault_plan::FaultPlan;
use edge_traits::{Sent, Sink};
use std::alloc::Global;
use std::marker::Model;

/// A sink that keeps what it is written, and fails at the writes that it is told. A failed write leaves
/// nothing behind.
#[derive(Drop)]
pub struct MemSink {
    bytes: Vec<u8>,
    plan: FaultPlan,
}

impl Model for MemSink {
    ghost use Rattle.memory_edges.specs.Slate.{Slate};

    ghost Value = { Slate };

    ghost view = { λ sink. record { written = sink.bytes.items; plan = sink.plan } };
}

impl MemSink {
    ghost use Rattle.std.specs.Prelude.{◌≡◌, []};
    ghost use Rattle.memory_edges.specs.Slate.{Slate};

    /// A sink that was written nothing; `fails` are the numbers of the writes that fail, from 0.
    pub fn new(alloc: Global, fails: Vec<u64>) -> MemSink
        ensures { result ≡ record { written = []; plan = record { fails = fails.items; calls = 0; faults = 0 } } }
    {
        MemSink {
            bytes: Vec::new(alloc),
            plan: FaultPlan::new(fails),
        }
    }

    /// What was written.
    pub fn written(&self) -> &[u8]
        ensures { result.now ≡ self.now.written }
    {
        self.bytes.as_slice()
    }
}

impl Sink for MemSink {
    ghost use Rattle.std.specs.Prelude.{◌≡◌, ◌↔◌, ◌≤◌, Some};
    ghost use Rattle.edge_traits.specs.Faults.{Rose};
    ghost use Rattle.memory_edges.specs.Plan.{IsToFail, after_call};
    ghost use Rattle.edge_traits.specs.Sink.{Wrote, OnWriteFailed, UnlessWriteFailed};
    ghost use Rattle.edge_traits.specs.Answers.{write_failed};

    ghost written = { λ sink. Some sink.written };

    ghost faults = { λ sink. sink.plan.faults };

    fn write(&mut self, bytes: &[u8]) -> Sent
        ensures wrote { Wrote (Some self.old.written) (Some self.new.written) bytes.now result }
        ensures cause { OnWriteFailed result (Rose self.old.plan.faults self.new.plan.faults) }
        ensures calm { UnlessWriteFailed result (self.new.plan.faults ≡ self.old.plan.faults) }
        ensures counted { self.old.plan.faults ≤ self.new.plan.faults }
        ensures failed { (result ≡ Sent.Failed) ↔ IsToFail self.old.plan }
        ensures plan { self.new.plan ≡ after_call self.old.plan (write_failed result) }
    {
        if self.plan.is_to_fail() {
            return Sent::Failed;
        }
        match self.bytes.extend_from_slice(bytes) {
            Ok(()) => Sent::All,
            Err(_) => Sent::Memory,
        }
    }
}
