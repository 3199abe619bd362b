//! The plan by which a fake fails.

use std::marker::Model;

/// Which calls of a fake fail, by their numbers from 0, and how many calls and faults there were. Calls are
/// numbered up to 2^64 - 2, and none fails after them.
#[derive(Drop)]
pub(crate) struct FaultPlan {
    fails: Vec<u64>,
    calls: u64,
    faults: u64,
}

impl Model for FaultPlan {
    ghost use Rattle.memory_edges.specs.Plan.{Plan};

    ghost Value = { Plan };

    ghost view = { λ plan. record { fails = plan.fails.items; calls = plan.calls; faults = plan.faults } };
}

impl FaultPlan {
    ghost use Rattle.std.specs.Prelude.{◌≡◌, ◌≤◌, ◌↔◌, IsTrue};
    ghost use Rattle.memory_edges.specs.Plan.{IsToFail, after_call};

    /// A plan before the first call.
    pub(crate) fn new(fails: Vec<u64>) -> FaultPlan
        ensures { result ≡ record { fails = fails.items; calls = 0; faults = 0 } }
    {
        FaultPlan {
            fails,
            calls: 0,
            faults: 0,
        }
    }

    /// Counts a call, and says whether it is to fail; then it counts a fault too.
    pub(crate) fn is_to_fail(&mut self) -> bool
        ensures fails { IsTrue result ↔ IsToFail self.old }
        ensures after { self.new ≡ after_call self.old result }
        ensures counted { self.old.faults ≤ self.new.faults }
    {
        let failed = self.calls != u64::MAX && self.fails.contains(&self.calls);
        self.calls = self.calls.saturating_add(1);
        if failed {
            self.faults = self.faults.saturating_add(1);
        }
        failed
    }
}
