//! A source of known bytes in memory.

ghost use Rattle.std.specs.Prelude.{◌≡◌, length, min, take};

use crate::fault_plan::FaultPlan;
use edge_traits::{Got, Source};
use std::marker::Model;

/// A source that gives known bytes, at most `cut` of them in one read, and fails at the reads that it is told.
#[derive(Drop)]
pub struct MemSource {
    bytes: Vec<u8>,
    at: usize,
    cut: usize,
    plan: FaultPlan,
}

impl Model for MemSource {
    ghost use Rattle.std.specs.Prelude.{◌≤◌, drop, vec_len};
    ghost use Rattle.memory_edges.specs.Stock.{Stock};

    ghost Value = { Stock };

    ghost view = { λ source. record {
      left = drop source.at source.bytes.items;
      cut = source.cut;
      plan = source.plan;
    } };

    ghost invariant = { λ source. (source.at ≤ vec_len source.bytes) × (1 ≤ source.cut) };
}

impl MemSource {
    ghost use Rattle.std.specs.Prelude.{◌≡◌, ◌≤◌};
    ghost use Rattle.memory_edges.specs.Stock.{Stock};

    /// A source of these bytes, of which a read gives at most `cut`, at least 1; `fails` are the numbers of
    /// the reads that fail, from 0.
    pub fn new(bytes: Vec<u8>, cut: usize, fails: Vec<u64>) -> MemSource
        requires { 1 ≤ cut }
        ensures { result ≡ record {
          left = bytes.items;
          cut = cut;
          plan = record { fails = fails.items; calls = 0; faults = 0 };
        } }
    {
        MemSource {
            bytes,
            at: 0,
            cut,
            plan: FaultPlan::new(fails),
        }
    }
}

impl Source for MemSource {
    ghost use Rattle.std.specs.Prelude.{◌≡◌, ◌↔◌, ◌<◌, ◌≤◌, Some, length, min};
    ghost use Rattle.edge_traits.specs.Faults.{Rose};
    ghost use Rattle.memory_edges.specs.Plan.{IsToFail, after_call};
    ghost use Rattle.edge_traits.specs.Source.{Took, OnReadFailed, IfBytes};
    ghost use Rattle.edge_traits.specs.Answers.{read_failed};

    ghost left = { λ source. Some source.left };

    ghost faults = { λ source. source.plan.faults };

    fn read(&mut self, buf: &mut [u8]) -> Got
        requires { 0 < length buf.old }
        ensures took { Took (Some self.old.left) (Some self.new.left) result buf.new }
        ensures cause { OnReadFailed result (Rose self.old.plan.faults self.new.plan.faults) }
        ensures counted { self.old.plan.faults ≤ self.new.plan.faults }
        ensures failed { (result ≡ Got.Failed) ↔ IsToFail self.old.plan }
        ensures cut { IfBytes result (λ n. n ≡ min self.old.cut (min (length buf.old) (length self.old.left))) }
        ensures plan { self.new.plan ≡ after_call self.old.plan (read_failed result) }
        ensures same_cut { self.new.cut ≡ self.old.cut }
    {
        if self.plan.is_to_fail() {
            return Got::Failed;
        }
        if self.at == self.bytes.len() {
            return Got::End;
        }
        let (_, left) = self.bytes.split_at(self.at);
        let n = give(left, self.cut, buf);
        self.at += n;
        Got::Bytes(n)
    }
}

/// Copies as much of the beginning of `left` as `cut` and the buffer allow to the beginning of `buf`.
fn give(left: &[u8], cut: usize, buf: &mut [u8]) -> usize
    ensures count { result ≡ min cut (min (length buf.old) (length left.now)) }
    ensures given { take result buf.new ≡ take result left.now }
{
    let n = cut.min(buf.len()).min(left.len());
    buf[..n].copy_from_slice(&left[..n]);
    n
}
